//! Packed values, lent or in memory of their own.

ghost use Rattle.std.specs.Prelude.{◌≡◌, ◌++◌, map, IfOk};
ghost use Rattle.pm_row_slots.specs.Seen.{seen_value};
ghost use Rattle.pm_packed.specs.Values.{values_in};

use crate::raw::{seen_of, take_raw};
use pm_row_slots::{Seen, copied};
use pm_values::Value;
use std::alloc::{AllocError, Global};

/// Adds so many first values of bytes, in memory of their own, and gives the rest.
pub(crate) fn take_values<'b>(
    alloc: Global,
    count: u8,
    bytes: &'b [u8],
    into: &mut Vec<Value>,
) -> Result<&'b [u8], AllocError>
    ensures values { IfOk result (λ _. into.new.items ≡ into.old.items ++ (values_in count bytes.now).0) }
    ensures rest { IfOk result (λ rest. rest.now ≡ (values_in count bytes.now).1) }
{
    let mut rest = bytes;
    for _ in 0..count {
        let (raw, later) = take_raw(rest);
        let Some(seen) = seen_of(raw) else {
            return Err(AllocError);
        };
        into.push(copied(alloc, seen)?)?;
        rest = later;
    }
    Ok(rest)
}

/// Adds so many first values of bytes, lent, and gives the rest.
pub(crate) fn see_values<'b>(
    count: u8,
    bytes: &'b [u8],
    into: &mut Vec<Seen<'b>>,
) -> Result<&'b [u8], AllocError>
    ensures values { IfOk result (λ _. map seen_value into.new.items
        ≡ map seen_value into.old.items ++ (values_in count bytes.now).0) }
    ensures rest { IfOk result (λ rest. rest.now ≡ (values_in count bytes.now).1) }
{
    let mut rest = bytes;
    for _ in 0..count {
        let (raw, later) = take_raw(rest);
        let Some(seen) = seen_of(raw) else {
            return Err(AllocError);
        };
        into.push(seen)?;
        rest = later;
    }
    Ok(rest)
}
