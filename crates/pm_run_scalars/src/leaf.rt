//! Data without others in them, read from the bytes that begin with them, where their numbers are in no more groups
//! than they take: so these are the bytes that are written for them. Where none is answered the bytes may still begin
//! with one.

ghost use Rattle.std.specs.Prelude.{◌≡◌, ◌+◌, ◌-◌, ◌⊎◌, ◌^◌, ◌<◌, ◌≤◌, ℕ, IfSome, IsTrue, drop, length};
ghost use Rattle.std.specs.Prelude.{◌≤ℤ◌, pos, slice_index};
ghost use Rattle.pm_avro_schema.specs.Avro as types;
ghost use Rattle.pm_avro_data.specs.Begins.{Begins};
ghost use Rattle.pm_avro_data.specs.Datum as datum;
ghost use Rattle.pm_avro_data.specs.IsDatum.{IsBytes, IsText};
ghost use Rattle.pm_avro_data.specs.Number.{AreGroups, IsInt, IsLong};
ghost use Rattle.pm_avro_data.specs.Reading.{unzigzag};
ghost use Rattle.pm_run_scalars.specs.Leaf.{IsScalar, IsWrittenScalar};
ghost use Rattle.pm_run_scalars.specs.Spelled.{AreLeastGroups, IsSpelled};
ghost use Rattle.pm_run.specs.Rows.{AreBytes};
ghost use Rattle.pm_row_slots.specs.Seen.{seen_value};

use pm_avro_data::{Datum, decode};
use pm_avro_schema::AvroType;
use pm_row_slots::Seen;
use pm_values::ColType;
use std::alloc::Global;
use std::str;

/// The number of 0001-01-01, in days from 1970-01-01.
const FIRST_DAY: i32 = -719162;

/// The number of 9999-12-31.
const LAST_DAY: i32 = 2932896;

/// The number in at most four groups that the bytes begin with, in no more than it takes, and the rest.
#[inline(always)]
fn read_groups(bytes: &[u8]) -> Option<(u64, &[u8])>
    ensures groups { IfSome result (λ x. AreGroups x.0 bytes.now x.1.now) }
    ensures least { IfSome result (λ x. AreLeastGroups x.0 bytes.now x.1.now) }
    ensures short { IfSome result (λ x. length bytes.now ≤ length x.1.now + 4) }
    ensures below { IfSome result (λ x. x.0 < 2 ^ 28) }
{
    let (first, rest) = bytes.split_first()?;
    let first = u64::from(*first);
    if first < 128 {
        return Some((first, rest));
    }
    let (second, rest) = rest.split_first()?;
    let second = u64::from(*second);
    if second == 0 {
        return None;
    }
    if second < 128 {
        return Some((first - 128 + 128 * second, rest));
    }
    let low = first - 128 + 128 * (second - 128);
    let (third, rest) = rest.split_first()?;
    let third = u64::from(*third);
    if third == 0 {
        return None;
    }
    if third < 128 {
        return Some((low + 16384 * third, rest));
    }
    let (fourth, rest) = rest.split_first()?;
    let fourth = u64::from(*fourth);
    if fourth == 0 {
        return None;
    }
    if fourth < 128 {
        return Some((low + 16384 * (third - 128) + 2097152 * fourth, rest));
    }
    None
}

/// The integer that a number stands for.
#[inline(always)]
fn from_zigzag(number: u64) -> i64
    ensures { result ≡ unzigzag number }
{
    let half = (number / 2) as i64;
    if number % 2 == 0 { half } else { -1 - half }
}

/// The long that the bytes begin with, as it is written, and the rest.
#[inline(always)]
pub fn read_long(alloc: Global, bytes: &[u8]) -> Option<(i64, &[u8])>
    ensures long { IfSome result (λ x. IsLong x.0 bytes.now x.1.now) }
    ensures written { IfSome result (λ x. IsSpelled bytes.now x.1.now (datum.long x.0)) }
{
    match read_groups(bytes) {
        Some((number, rest)) => Some((from_zigzag(number), rest)),
        None => read_wide_long(alloc, bytes),
    }
}

/// The same of a long in any number of groups.
#[inline(never)]
fn read_wide_long(alloc: Global, bytes: &[u8]) -> Option<(i64, &[u8])>
    ensures long { IfSome result (λ x. IsLong x.0 bytes.now x.1.now) }
    ensures written { IfSome result (λ x. IsSpelled bytes.now x.1.now (datum.long x.0)) }
{
    let (number, size) = decode_long(alloc, bytes)?;
    let rest = after_least(bytes, size)?;
    Some((number, rest))
}

/// The long that the bytes begin with, however it is spelled, and in how many bytes.
fn decode_long(alloc: Global, bytes: &[u8]) -> Option<(i64, usize)>
    ensures { IfSome result (λ x. Begins types.long bytes.now (datum.long x.0) x.1) }
{
    match decode(alloc, &AvroType::Long, bytes) {
        Ok((Datum::Long(number), size)) => Some((number, size)),
        _ => None,
    }
}

/// What stands after groups of so many bytes, where they are no more than the number takes.
fn after_least(bytes: &[u8], size: usize) -> Option<&[u8]>
    ensures rest { IfSome result (λ rest. rest.now ≡ drop size bytes.now) }
    ensures least { IfSome result (λ rest. (n : ℕ) → AreGroups n bytes.now rest.now
        → AreLeastGroups n bytes.now rest.now) }
{
    if size == 0 || bytes.len() < size {
        return None;
    }
    if ends_above(bytes, size) {
        return Some(bytes.split_at(size).1);
    }
    None
}

/// Whether the first of the bytes, so many, are one alone, or the last of them isn't 0.
fn ends_above(bytes: &[u8], size: usize) -> bool
    requires { (0 < size) × (size ≤ length bytes.now) }
    ensures { IsTrue result → (size ≡ 1) ⊎ (0 < slice_index bytes.now (size - 1)) }
{
    size == 1 || bytes[size - 1] > 0
}

/// The int that the bytes begin with, as it is written, and the rest.
#[inline(always)]
pub fn read_int(alloc: Global, bytes: &[u8]) -> Option<(i32, &[u8])>
    ensures int { IfSome result (λ x. IsInt x.0 bytes.now x.1.now) }
    ensures written { IfSome result (λ x. IsSpelled bytes.now x.1.now (datum.int x.0)) }
{
    match read_groups(bytes) {
        Some((number, rest)) => Some((from_zigzag(number) as i32, rest)),
        None => read_wide_int(alloc, bytes),
    }
}

/// The same of an int in any number of groups.
#[inline(never)]
fn read_wide_int(alloc: Global, bytes: &[u8]) -> Option<(i32, &[u8])>
    ensures int { IfSome result (λ x. IsInt x.0 bytes.now x.1.now) }
    ensures written { IfSome result (λ x. IsSpelled bytes.now x.1.now (datum.int x.0)) }
{
    let (number, size) = decode_int(alloc, bytes)?;
    let rest = after_least(bytes, size)?;
    Some((number, rest))
}

/// The int that the bytes begin with, however it is spelled, and in how many bytes.
fn decode_int(alloc: Global, bytes: &[u8]) -> Option<(i32, usize)>
    ensures { IfSome result (λ x. Begins types.int bytes.now (datum.int x.0) x.1) }
{
    match decode(alloc, &AvroType::Int, bytes) {
        Ok((Datum::Int(number), size)) => Some((number, size)),
        _ => None,
    }
}

/// The size that the bytes begin with, a long that isn't negative, and the rest.
#[inline(always)]
pub fn read_size(alloc: Global, bytes: &[u8]) -> Option<(usize, &[u8])>
    ensures long { IfSome result (λ x. IsLong (pos x.0) bytes.now x.1.now) }
    ensures written { IfSome result (λ x. IsSpelled bytes.now x.1.now (datum.long (pos x.0))) }
{
    let (size, rest) = read_long(alloc, bytes)?;
    if size < 0 {
        return None;
    }
    Some((size as usize, rest))
}

/// The bytes that stand first, with their length, where they lie, and the rest.
#[inline(always)]
fn read_bytes(alloc: Global, bytes: &[u8]) -> Option<(&[u8], &[u8])>
    ensures bytes { IfSome result (λ x. IsBytes x.0.now bytes.now x.1.now) }
    ensures written { IfSome result (λ x. IsSpelled bytes.now x.1.now (datum.bytes x.0.now)) }
{
    let (size, rest) = read_size(alloc, bytes)?;
    if rest.len() < size {
        return None;
    }
    Some(rest.split_at(size))
}

/// The text that the bytes begin with, where it lies, and the rest.
#[inline(always)]
fn read_text(alloc: Global, bytes: &[u8]) -> Option<(&str, &[u8])>
    ensures text { IfSome result (λ x. IsText x.0.now bytes.now x.1.now) }
    ensures written { IfSome result (λ x. IsSpelled bytes.now x.1.now (datum.text x.0.now)) }
{
    let (content, rest) = read_bytes(alloc, bytes)?;
    Some((str::from_utf8(content).ok()?, rest))
}

/// The bytes that stand first, with their length, where they lie, and the rest.
fn read_blob(alloc: Global, bytes: &[u8]) -> Option<(&[u8], &[u8])>
    ensures bytes { IfSome result (λ x. IsBytes x.0.now bytes.now x.1.now) }
    ensures written { IfSome result (λ x. IsSpelled bytes.now x.1.now (datum.bytes x.0.now)) }
    ensures each { IfSome result (λ x. AreBytes x.0.now) }
{
    let (content, rest) = read_bytes(alloc, bytes)?;
    known_bytes(content);
    Some((content, rest))
}

/// States for clauses that each of these numbers is a byte.
pub fn known_bytes(bytes: &[u8])
    ensures { AreBytes bytes.now }
{}

/// The value of a boolean that the bytes begin with, and the rest.
fn read_boolean(bytes: &[u8]) -> Option<(Seen, &[u8])>
    ensures scalar { IfSome result (λ x. IsScalar ColType.Boolean (seen_value x.0) bytes.now x.1.now) }
    ensures written { IfSome result (λ x. IsWrittenScalar ColType.Boolean (seen_value x.0) bytes.now x.1.now) }
{
    match bytes.split_first()? {
        (0, rest) => Some((Seen::Bool(false), rest)),
        (1, rest) => Some((Seen::Bool(true), rest)),
        _ => None,
    }
}

/// The int from the low one to the high one that the bytes begin with, and the rest.
fn read_within(alloc: Global, low: i32, high: i32, bytes: &[u8]) -> Option<(i32, &[u8])>
    ensures int { IfSome result (λ x. IsInt x.0 bytes.now x.1.now) }
    ensures written { IfSome result (λ x. IsSpelled bytes.now x.1.now (datum.int x.0)) }
    ensures within { IfSome result (λ x. (low ≤ℤ x.0) × (x.0 ≤ℤ high)) }
{
    let (number, rest) = read_int(alloc, bytes)?;
    if low <= number && number <= high {
        Some((number, rest))
    } else {
        None
    }
}

/// The value of a column's type that the bytes begin with, which isn't null, as it is written, where it lies, and the
/// rest.
#[inline(always)]
pub fn see_scalar(alloc: Global, kind: ColType, bytes: &[u8]) -> Option<(Seen, &[u8])>
    ensures scalar { IfSome result (λ x. IsScalar kind (seen_value x.0) bytes.now x.1.now) }
    ensures written { IfSome result (λ x. IsWrittenScalar kind (seen_value x.0) bytes.now x.1.now) }
{
    match kind {
        ColType::Boolean => read_boolean(bytes),
        ColType::TinyInt => {
            let (number, rest) = read_within(alloc, i32::from(i8::MIN), i32::from(i8::MAX), bytes)?;
            Some((Seen::Int(i64::from(number)), rest))
        }
        ColType::SmallInt => {
            let (number, rest) = read_within(
                alloc,
                i32::from(i16::MIN),
                i32::from(i16::MAX),
                bytes,
            )?;
            Some((Seen::Int(i64::from(number)), rest))
        }
        ColType::Int => {
            let (number, rest) = read_int(alloc, bytes)?;
            Some((Seen::Int(i64::from(number)), rest))
        }
        ColType::BigInt => {
            let (number, rest) = read_long(alloc, bytes)?;
            Some((Seen::Int(number), rest))
        }
        ColType::Text => {
            let (text, rest) = read_text(alloc, bytes)?;
            Some((Seen::Text(text), rest))
        }
        ColType::Bytes => {
            let (content, rest) = read_blob(alloc, bytes)?;
            Some((Seen::Bytes(content), rest))
        }
        ColType::Date => {
            let (day, rest) = read_within(alloc, FIRST_DAY, LAST_DAY, bytes)?;
            Some((Seen::Day(day), rest))
        }
        ColType::Timestamp => {
            let (millis, rest) = read_long(alloc, bytes)?;
            Some((Seen::Millis(millis), rest))
        }
    }
}
