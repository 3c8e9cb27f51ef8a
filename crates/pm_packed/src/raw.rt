//! Values where they are packed.

ghost use Rattle.std.specs.Prelude.{◌≡◌, IfSome};
ghost use Rattle.pm_row_slots.specs.Seen.{seen_value};
ghost use Rattle.pm_values.specs.declared.value.Value.TheVariants.{Int};
ghost use Rattle.pm_packed.specs.Values.{content_in, day_in, raw_value, tagged, value_in, whole_in};

use pm_row_slots::Seen;

/// A value where it is packed. A text is known by its bytes.
#[derive(Clone, Copy)]
pub(crate) enum Raw<'b> {
    Null,
    Bool(bool),
    Int(i64),
    Text(&'b [u8]),
    Bytes(&'b [u8]),
    Day(i32),
    Millis(i64),
}

/// The first value of bytes, and the rest. Where they have none it is null.
pub(crate) fn take_raw(bytes: &[u8]) -> (Raw<'_>, &[u8])
    ensures { (raw_value result.0, result.1.now) ≡ value_in bytes.now }
{
    match bytes.split_first() {
        Some((tag, rest)) => take_tagged(*tag, rest),
        None => (Raw::Null, bytes),
    }
}

/// The first value of bytes where it is an integer.
#[inline(always)]
pub(crate) fn first_integer(bytes: &[u8]) -> Option<i64>
    ensures { IfSome result (λ number. (value_in bytes.now).0 ≡ Int number) }
{
    let (tag, rest) = bytes.split_first()?;
    if *tag != 3 {
        return None;
    }
    let (number, _) = take_whole(rest);
    Some(number)
}

/// The value with the tag, and the rest.
fn take_tagged(tag: u8, bytes: &[u8]) -> (Raw<'_>, &[u8])
    ensures { (raw_value result.0, result.1.now) ≡ tagged tag bytes.now }
{
    match tag {
        1 => (Raw::Bool(false), bytes),
        2 => (Raw::Bool(true), bytes),
        3 => {
            let (number, rest) = take_whole(bytes);
            (Raw::Int(number), rest)
        }
        4 => {
            let (content, rest) = take_content(bytes);
            (Raw::Text(content), rest)
        }
        5 => {
            let (content, rest) = take_content(bytes);
            (Raw::Bytes(content), rest)
        }
        6 => {
            let (day, rest) = take_day(bytes);
            (Raw::Day(day), rest)
        }
        7 => {
            let (millis, rest) = take_whole(bytes);
            (Raw::Millis(millis), rest)
        }
        _ => (Raw::Null, bytes),
    }
}

/// The number of the first eight bytes, and the rest.
fn take_whole(bytes: &[u8]) -> (i64, &[u8])
    ensures { (result.0, result.1.now) ≡ whole_in bytes.now }
{
    match bytes.split_first_chunk::<8>() {
        Some((first, rest)) => (i64::from_le_bytes(*first), rest),
        None => (0, &[]),
    }
}

/// The number of the first four bytes, and the rest.
fn take_day(bytes: &[u8]) -> (i32, &[u8])
    ensures { (result.0, result.1.now) ≡ day_in bytes.now }
{
    match bytes.split_first_chunk::<4>() {
        Some((first, rest)) => (i32::from_le_bytes(*first), rest),
        None => (0, &[]),
    }
}

/// The bytes whose length the first four bytes are, and the rest.
fn take_content(bytes: &[u8]) -> (&[u8], &[u8])
    ensures { (result.0.now, result.1.now) ≡ content_in bytes.now }
{
    match bytes.split_first_chunk::<4>() {
        Some((first, rest)) => {
            let len = u32::from_le_bytes(*first) as usize;
            rest.split_at(len.min(rest.len()))
        }
        None => (&[], &[]),
    }
}

/// The value, where it lies; none of a text that isn't UTF-8.
pub(crate) fn seen_of(raw: Raw<'_>) -> Option<Seen<'_>>
    ensures { IfSome result (λ seen. seen_value seen ≡ raw_value raw.entry) }
{
    match raw {
        Raw::Null => Some(Seen::Null),
        Raw::Bool(truth) => Some(Seen::Bool(truth)),
        Raw::Int(number) => Some(Seen::Int(number)),
        Raw::Text(content) => match simdutf8::basic::from_utf8(content) {
            Ok(text) => Some(Seen::Text(text)),
            Err(_) => None,
        },
        Raw::Bytes(content) => Some(Seen::Bytes(content)),
        Raw::Day(day) => Some(Seen::Day(day)),
        Raw::Millis(millis) => Some(Seen::Millis(millis)),
    }
}
