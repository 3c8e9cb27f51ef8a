//! Numbers in records.

ghost use Rattle.std.specs.Prelude.{◌≡◌, ◌≤◌, ◌<◌, ◌^◌, IfOk, pos};
ghost use Rattle.pm_avro_data.specs.Datum.{view, int, long};
ghost use Rattle.pm_manifest.specs.Number.{count_in, natural_in};

use pm_avro_data::Datum;
use pm_record::{read_int, read_long};
use std::alloc::AllocError;

/// The greatest size of a file, number of rows, and number of entries.
pub const MOST_COUNTED: u64 = 0x1_0000_0000_0000;

/// The greatest id of a schema, 2^53 - 1.
pub const MOST_ID: u64 = 0x1f_ffff_ffff_ffff;

/// The greatest sequence number, 2^62 - 1.
pub const MOST_SEQUENCE: u64 = 0x3fff_ffff_ffff_ffff;

/// The number of a long from 0 to the greatest.
pub fn read_count(datum: &Datum, most: u64) -> Option<u64>
    ensures { result ≡ count_in most (view datum.now) }
{
    let number = u64::try_from(read_long(datum)?).ok()?;
    if number <= most { Some(number) } else { None }
}

/// The number of an int from 0 on.
pub fn read_natural(datum: &Datum) -> Option<u32>
    ensures { result ≡ natural_in (view datum.now) }
{
    u32::try_from(read_int(datum)?).ok()
}

/// The datum of a number up to the greatest; out of memory for more.
pub fn write_count(number: u64, most: u64) -> Result<Datum, AllocError>
    ensures datum { IfOk result (λ d. view d ≡ long (pos number)) }
    ensures within { IfOk result (λ d. number ≤ most) }
{
    match i64::try_from(number) {
        Ok(long) if number <= most => Ok(Datum::Long(long)),
        _ => Err(AllocError),
    }
}

/// The datum of a number that an int can hold; out of memory for more.
pub fn write_natural(number: u32) -> Result<Datum, AllocError>
    ensures datum { IfOk result (λ d. view d ≡ int (pos number)) }
    ensures within { IfOk result (λ d. number < 2 ^ 31) }
{
    match i32::try_from(number) {
        Ok(int) => Ok(Datum::Int(int)),
        Err(_) => Err(AllocError),
    }
}
