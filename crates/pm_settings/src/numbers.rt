//! Numbers and times in options' texts.

ghost use Rattle.std.specs.Prelude.{◌≡◌, ◌≤◌, ◌-◌, ◌^◌, min, IfSome, option_map, take, drop};
ghost use Rattle.std.specs.Char.{is_ascii_digit};
ghost use Rattle.std.specs.List.{prefix_len, AllPass};
ghost use Rattle.std.specs.Str.Parse.{digits_value};
ghost use Rattle.pm_options.specs.Numbers.{is_digits, number_in, number_from, time_in, time_of, unit_millis, unspaced};

/// The longest time that an option may state, in milliseconds.
const LONGEST: u64 = 9007199254740992;

/// The number of a text, or the greatest of 64 bits where it is greater.
pub(crate) fn read_number(text: &str) -> Option<u64>
    ensures { result ≡ option_map (min (2 ^ 64 - 1)) (number_in text.now) }
{
    let text = text.as_bytes();
    if !is_digits(text) || (text[0] == b'0' && text.len() > 1) {
        return None;
    }
    Some(digits_value(text))
}

/// The number of a text, if it is one from low to high.
pub(crate) fn read_number_from(low: u32, high: u32, text: &str) -> Option<u32>
    ensures { result ≡ number_from low high text.now }
{
    match read_number(text) {
        Some(n) if u64::from(low) <= n && n <= u64::from(high) => Some(n as u32),
        _ => None,
    }
}

/// Whether the text is one decimal digit or more.
fn is_digits(text: &[u8]) -> bool
    ensures { result ≡ is_digits text.now }
{
    for b in text {
        if !b.is_ascii_digit() {
            return false;
        }
    }
    !text.is_empty()
}

/// The number of digits, or the greatest of 64 bits where it is greater.
fn digits_value(digits: &[u8]) -> u64
    requires { AllPass is_ascii_digit digits.now }
    ensures { result ≡ min (2 ^ 64 - 1) (digits_value 10 digits.now) }
{
    let mut total: u64 = 0;
    for digit in digits {
        total = total
            .saturating_mul(10)
            .saturating_add(u64::from(*digit - b'0'));
    }
    total
}

/// The milliseconds of a time: digits, a space or none, and a unit.
pub(crate) fn read_time(text: &str) -> Option<u64>
    ensures { result ≡ time_in text.now }
{
    let text = text.as_bytes();
    let (digits, unit) = text.split_at(digit_count(text));
    let millis = unit_millis(unspaced(unit))?;
    if digits.is_empty() {
        return None;
    }
    let total = digits_value(digits).saturating_mul(millis);
    if total <= LONGEST { Some(total) } else { None }
}

/// How many digits the text begins with.
fn digit_count(text: &[u8]) -> usize
    ensures { result ≡ prefix_len is_ascii_digit text.now }
{
    for (count, b) in text.iter().enumerate() {
        if !b.is_ascii_digit() {
            return count;
        }
    }
    text.len()
}

/// The text after a space, where it begins with one.
fn unspaced(text: &[u8]) -> &[u8]
    ensures { result.now ≡ unspaced text.now }
{
    match text {
        [b' ', rest @ ..] => rest,
        _ => text,
    }
}

/// The milliseconds of a unit of time.
fn unit_millis(unit: &[u8]) -> Option<u64>
    ensures { result ≡ unit_millis unit.now }
{
    match unit {
        b"ms" => Some(1),
        b"s" => Some(1000),
        b"min" => Some(60000),
        b"h" => Some(3600000),
        b"d" => Some(86400000),
        _ => None,
    }
}
