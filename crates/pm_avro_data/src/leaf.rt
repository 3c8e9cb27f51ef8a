//! Data that hold no other data.

ghost use Rattle.std.specs.Prelude.{◌≡◌};
ghost use Rattle.pm_avro_data.specs.Datum.{view, boolean, int, long, bytes as bytes_data, text};
ghost use Rattle.pm_avro_data.specs.Reading.{IsReading, Yields, seen_as, boolean_at};
ghost use Rattle.pm_avro_data.specs.Reading.{int_at, long_at, bytes_at, text_at};

use crate::datum::Datum;
use crate::number::{read_byte, read_int, read_long, read_size};
use pm_avro_schema::AvroFault;
use pm_base::Txt;
use std::alloc::Global;
use std::str;

/// The boolean that the bytes begin with, and the rest.
#[tactic(auto, unfolding(crate::specs::Reading::boolean_at))]
fn read_boolean(bytes: &[u8]) -> Option<(bool, &[u8])>
    ensures { IsReading (λ b. b) result (boolean_at bytes.now) }
{
    match read_byte(bytes) {
        Some((0, rest)) => Some((false, rest)),
        Some((1, rest)) => Some((true, rest)),
        _ => None,
    }
}

/// The bytes that stand first, with their length, where they lie, and the rest.
#[tactic(auto, unfolding(crate::specs::Reading::bytes_at))]
fn read_bytes(bytes: &[u8]) -> Option<(&[u8], &[u8])>
    ensures { IsReading (λ b. b.now) result (bytes_at bytes.now) }
{
    let (size, rest) = read_size(bytes)?;
    if rest.len() < size {
        return None;
    }
    Some(rest.split_at(size))
}

/// The text that the bytes begin with, and the rest.
#[tactic(auto, unfolding(crate::specs::Reading::text_at))]
pub(crate) fn read_text(alloc: Global, bytes: &[u8]) -> Result<(Txt, &[u8]), AvroFault>
    ensures { Yields (λ x. (x.0, x.1.now)) result (text_at bytes.now) }
{
    let (text, rest) = read_bytes(bytes).ok_or(AvroFault::Bad(0))?;
    match str::from_utf8(text) {
        Ok(text) => Ok((Txt::from_str(alloc, text)?, rest)),
        Err(_) => Err(AvroFault::Bad(0)),
    }
}

/// A boolean as a datum, and the rest.
pub(crate) fn boolean_datum(bytes: &[u8]) -> Result<(Datum, &[u8]), AvroFault>
    ensures { Yields (λ x. (view x.0, x.1.now)) result (seen_as boolean (boolean_at bytes.now)) }
{
    let (flag, rest) = read_boolean(bytes).ok_or(AvroFault::Bad(0))?;
    Ok((Datum::Bool(flag), rest))
}

/// An int as a datum, and the rest.
pub(crate) fn int_datum(bytes: &[u8]) -> Result<(Datum, &[u8]), AvroFault>
    ensures { Yields (λ x. (view x.0, x.1.now)) result (seen_as int (int_at bytes.now)) }
{
    let (number, rest) = read_int(bytes).ok_or(AvroFault::Bad(0))?;
    Ok((Datum::Int(number), rest))
}

/// A long as a datum, and the rest.
pub(crate) fn long_datum(bytes: &[u8]) -> Result<(Datum, &[u8]), AvroFault>
    ensures { Yields (λ x. (view x.0, x.1.now)) result (seen_as long (long_at bytes.now)) }
{
    let (number, rest) = read_long(bytes).ok_or(AvroFault::Bad(0))?;
    Ok((Datum::Long(number), rest))
}

/// Bytes as a datum, copied, and the rest.
pub(crate) fn bytes_datum(alloc: Global, bytes: &[u8]) -> Result<(Datum, &[u8]), AvroFault>
    ensures { Yields (λ x. (view x.0, x.1.now)) result (seen_as bytes_data (bytes_at bytes.now)) }
{
    let (content, rest) = read_bytes(bytes).ok_or(AvroFault::Bad(0))?;
    Ok((Datum::Bytes(Vec::from_slice(alloc, content)?), rest))
}

/// A text as a datum, copied, and the rest.
pub(crate) fn text_datum(alloc: Global, bytes: &[u8]) -> Result<(Datum, &[u8]), AvroFault>
    ensures { Yields (λ x. (view x.0, x.1.now)) result (seen_as text (text_at bytes.now)) }
{
    let (text, rest) = read_text(alloc, bytes)?;
    Ok((Datum::Text(text), rest))
}
