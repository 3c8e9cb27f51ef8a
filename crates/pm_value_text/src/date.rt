//! Days as `YYYY-MM-DD`.

ghost use Rattle.std.specs.Prelude.{◌≡◌, ◌↔◌, ◌≤◌, ℤ, Some, IfOk, IfSome, IsTrue};
ghost use Rattle.std.specs.String.{string_bytes};
ghost use Rattle.pm_value_text.specs.Date.{IsDateText, IsDay, date_number, date_text, day_in, day_of_month, month_of};
ghost use Rattle.pm_value_text.specs.Date.{pair_in, parts_in, parts_text, year_of};
ghost use Rattle.pm_value_text.specs.Date as digits;

use jiff::civil::Date;
use jiff_core::civil::Date as Day;
use std::alloc::{AllocError, Global};
use std::str;

/// Days from 1970-01-01 to 0001-01-01.
const FIRST_DAY: i32 = -719162;

/// Days from 1970-01-01 to 9999-12-31.
const LAST_DAY: i32 = 2932896;

/// Whether a number of days from 1970-01-01 is that of a day from 0001-01-01 to 9999-12-31.
pub fn is_day(day: i32) -> bool
    ensures { IsTrue result ↔ IsDay day }
{
    FIRST_DAY <= day && day <= LAST_DAY
}

/// The number of the day whose text `YYYY-MM-DD` this is, counted from 1970-01-01. None for a text
/// that is of no day from 0001-01-01 to 9999-12-31.
#[tactic(auto, unfolding(crate::specs::Date::day_in))]
pub fn parse_date(text: &str) -> Option<i32>
    ensures named { (day : ℤ) → (result ≡ Some day) ↔ IsDateText text.now day }
    ensures value { result ≡ day_in text.now }
{
    let (year, month, day) = parse_parts(text.as_bytes())?;
    number(year, month, day)
}

/// The year, the month and the day of ten characters.
fn parse_parts(text: &[u8]) -> Option<(u16, u8, u8)>
    ensures value { result ≡ parts_in text.now }
    ensures bound { IfSome result (λ parts. (parts.0 ≤ 9999) × (parts.1 ≤ 99) × (parts.2 ≤ 99)) }
{
    if text.len() != 10 || text[4] != b'-' || text[7] != b'-' {
        return None;
    }
    let century = pair(text[0], text[1])?;
    let rest = pair(text[2], text[3])?;
    let month = pair(text[5], text[6])?;
    let day = pair(text[8], text[9])?;
    Some((100 * century as u16 + rest as u16, month, day))
}

/// The number of two decimal digits.
fn pair(tens: u8, ones: u8) -> Option<u8>
    ensures value { result ≡ pair_in tens ones }
    ensures bound { IfSome result (λ number. number ≤ 99) }
{
    if tens.is_ascii_digit() && ones.is_ascii_digit() {
        Some(10 * (tens - b'0') + (ones - b'0'))
    } else {
        None
    }
}

/// The number of a date, if there is such a date.
fn number(year: u16, month: u8, day: u8) -> Option<i32>
    requires year { year ≤ 9999 }
    requires month { month ≤ 99 }
    requires day { day ≤ 99 }
    ensures { result ≡ date_number year month day }
{
    // jiff has the years before 1 too.
    if year == 0 {
        return None;
    }
    match Date::new(year as i16, month as i8, day as i8) {
        Ok(date) => Some(date.to_plain().to_unix_epoch_day()),
        Err(_) => None,
    }
}

/// The text `YYYY-MM-DD` of the civil date that has this day number, counted from 1970-01-01.
#[tactic(auto, unfolding(crate::specs::Date::date_text))]
pub fn print_date(alloc: Global, day: i32) -> Result<String, AllocError>
    requires { IsDay day }
    ensures named { IfOk result (λ text. IsDateText (string_bytes text) day) }
    ensures value { IfOk result (λ text. string_bytes text ≡ date_text day) }
{
    let (year, month, day) = parts(day);
    let characters = characters(year, month, day);
    match str::from_utf8(&characters) {
        Ok(text) => String::from_str(alloc, text),
        Err(_) => unreachable!(),
    }
}

/// The year, the month and the day of the month that a day number has.
fn parts(day: i32) -> (u16, u8, u8)
    requires { IsDay day }
    ensures year { result.0 ≡ year_of day }
    ensures month { result.1 ≡ month_of day }
    ensures day { result.2 ≡ day_of_month day }
    ensures short { (result.0 ≤ 9999) × (result.1 ≤ 99) × (result.2 ≤ 99) }
{
    match Day::from_unix_epoch_day(day as i64) {
        Ok(date) => (date.year as u16, date.month, date.day),
        Err(_) => unreachable!(),
    }
}

/// The characters of a date.
fn characters(year: u16, month: u8, day: u8) -> [u8; 10]
    requires year { year ≤ 9999 }
    requires month { month ≤ 99 }
    requires day { day ≤ 99 }
    ensures { result ≡ parts_text year month day }
{
    let [a, b] = two_digits((year / 100) as u8);
    let [c, d] = two_digits((year % 100) as u8);
    let [e, f] = two_digits(month);
    let [g, h] = two_digits(day);
    [a, b, c, d, b'-', e, f, b'-', g, h]
}

/// A number below 100 in two decimal digits.
fn two_digits(number: u8) -> [u8; 2]
    requires { number ≤ 99 }
    ensures { result ≡ digits.two_digits number }
{
    [b'0' + number / 10, b'0' + number % 10]
}
