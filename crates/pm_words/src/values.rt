//! The values of options.

ghost use Rattle.std.specs.Prelude.{◌≡◌, ◌≤◌, ◌↔◌, ℕ, List, false, Some, IfOk, IfSome, IfNone, IsTrue};
ghost use Rattle.std.specs.List.{list_all, list_any};
ghost use Rattle.std.specs.Fmt.{decimal};
ghost use Rattle.pm_words.specs.Clap.{Declared, HasFound, declared_as, flag, has_flag, value};
ghost use Rattle.pm_words.specs.Reading.{Finds, GiveBetween, GiveRetained, IsNameOf, IsNumberOf};
ghost use Rattle.pm_words.specs.Words.{AreInOrder, GiveFlag, GiveName, GiveNumber, IsName, IsRetained, is_name_byte};

use clap::ArgMatches;
use itoa::Buffer;
use pm_values::Txt;
use std::alloc::{AllocError, Global};

/// The greatest number that an option takes.
pub(crate) const GREATEST_NUMBER: u64 = 9223372036854775807;

/// The greatest number of snapshots that can be asked to be kept.
const GREATEST_RETAINED: u64 = 2147483647;

/// Whether the flag is given.
pub(crate) fn flag_given(matches: &ArgMatches, option: &str) -> bool
    ensures { (declared : List Declared) (words : List (List ℕ)) (found : HasFound declared words matches.now)
        → declared_as option.now declared ≡ Some (flag option.now) → GiveFlag found.options option.now result }
{
    matches.get_flag(option)
}

/// The name that is given here, if one is or the option is absent.
pub(crate) fn name_given(
    alloc: Global,
    matches: &ArgMatches,
    option: &str,
) -> Result<Option<Option<Txt>>, AllocError>
    ensures { IfOk result (λ name. (declared : List Declared) (words : List (List ℕ))
        (found : HasFound declared words matches.now) → declared_as option.now declared ≡ Some (value option.now)
        → list_any (has_flag option.now) declared ≡ false → Finds (GiveName found.options option.now) name) }
{
    let Some(text) = matches.get_str(option) else {
        return Ok(Some(None));
    };
    match name_in(alloc, text)? {
        Some(name) => Ok(Some(Some(name))),
        None => Ok(None),
    }
}

/// The number that is given here, if one is or the option is absent.
pub(crate) fn number_given(matches: &ArgMatches, option: &str) -> Option<Option<u64>>
    ensures { (declared : List Declared) (words : List (List ℕ)) (found : HasFound declared words matches.now)
        → declared_as option.now declared ≡ Some (value option.now)
        → list_any (has_flag option.now) declared ≡ false → Finds (GiveNumber found.options option.now) result }
{
    match matches.get_str(option) {
        Some(text) => {
            let number = number_in(text)?;
            Some(Some(number))
        }
        None => Some(None),
    }
}

/// The number that is given here, if one is between these.
pub(crate) fn number_between(
    matches: &ArgMatches,
    option: &str,
    least: u64,
    greatest: u64,
) -> Option<u64>
    ensures { (declared : List Declared) (words : List (List ℕ)) (found : HasFound declared words matches.now)
        → declared_as option.now declared ≡ Some (value option.now) → list_any (has_flag option.now) declared ≡ false
        → Finds (GiveBetween found.options option.now least greatest) result }
{
    let number = number_given(matches, option)??;
    if is_between(number, least, greatest) {
        Some(number)
    } else {
        None
    }
}

/// Whether a number is between these.
fn is_between(number: u64, least: u64, greatest: u64) -> bool
    ensures { IsTrue result ↔ ((least ≤ number) × (number ≤ greatest)) }
{
    least <= number && number <= greatest
}

/// The number of snapshots to be kept that is given here, if one is or the option is absent.
pub(crate) fn retained_given(matches: &ArgMatches, option: &str) -> Option<Option<u64>>
    ensures { (declared : List Declared) (words : List (List ℕ)) (found : HasFound declared words matches.now)
        → declared_as option.now declared ≡ Some (value option.now)
        → list_any (has_flag option.now) declared ≡ false → Finds (GiveRetained found.options option.now) result }
{
    let number = number_given(matches, option)?;
    if is_retained(number) {
        Some(number)
    } else {
        None
    }
}

/// Whether so many snapshots can be asked to be kept, where a number is given.
fn is_retained(number: Option<u64>) -> bool
    ensures { IsTrue result ↔ IsRetained number }
{
    match number {
        Some(n) => n >= 1 && n <= GREATEST_RETAINED,
        None => true,
    }
}

/// Whether the least number is at most the greatest, where both are given.
pub(crate) fn are_in_order(least: Option<u64>, greatest: Option<u64>) -> bool
    ensures { IsTrue result ↔ AreInOrder least greatest }
{
    match (least, greatest) {
        (Some(least), Some(greatest)) => least <= greatest,
        _ => true,
    }
}

/// The number that an option's text is, if it is one.
fn number_in(text: &str) -> Option<u64>
    ensures { Finds (IsNumberOf text.now) result }
{
    let Ok(n) = text.parse::<u64>() else {
        return None;
    };
    if n > GREATEST_NUMBER {
        return None;
    }
    if Buffer::new().format(n) == text {
        Some(n)
    } else {
        None
    }
}

/// The name that an option's text is, if it is one.
fn name_in(alloc: Global, text: &str) -> Result<Option<Txt>, AllocError>
    ensures { IfOk result (Finds (IsNameOf text.now)) }
{
    if is_name(text.as_bytes()) {
        Ok(Some(Txt::from_str(alloc, text)?))
    } else {
        Ok(None)
    }
}

/// Whether the text is a name.
fn is_name(text: &[u8]) -> bool
    ensures { IsTrue result ↔ IsName text.now }
{
    !text.is_empty() && text.len() <= 64 && are_of_names(text)
}

/// Whether each byte may stand in a name.
fn are_of_names(text: &[u8]) -> bool
    ensures { result ≡ list_all is_name_byte text.now }
{
    for byte in text {
        if !is_name_byte(*byte) {
            return false;
        }
    }
    true
}

/// Whether the byte may stand in a name.
fn is_name_byte(byte: u8) -> bool
    ensures { result ≡ is_name_byte byte }
{
    byte.is_ascii_alphanumeric() || byte == b'.' || byte == b'_' || byte == b'-'
}
