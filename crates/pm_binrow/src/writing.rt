//! Writing a row.

ghost use Rattle.std.specs.Prelude.{◌≡◌, ◌++◌, ◌+◌, ◌*◌, ◌%◌, ◌≤◌, ◌<◌, ◌^◌, ℕ, length, take, IfOk, OnOk};
ghost use Rattle.std.specs.List.{flat_map};
ghost use Rattle.pm_binrow.specs.Row.{IsShort, bytes_of, cut, filled, fixed_size, row_bytes, slot, slots, tail};

use crate::fixed::{push_count, push_number};
use crate::null_bytes::{null_count, push_null_bytes};
use crate::text::{push_text_slot, push_text_tail, push_zeros, tail_size};
use pm_values::{ColType, Row, Value};
use std::alloc::{AllocError, Global};

/// One more than how many bytes a row takes at most.
pub(crate) const LIMIT: usize = 0x8000_0000;

/// The bytes of a row of columns of these types, null where it has no value for a column. Out of memory is also
/// answered where they would be 2^31 or more.
pub fn to_binary(alloc: Global, types: &[ColType], row: &Row) -> Result<Vec<u8>, AllocError>
    ensures bytes { IfOk result (λ v. v.items ≡ row_bytes types.now row.now) }
    ensures short { IfOk result (λ v. IsShort types.now row.now) }
    // The hash may be asked for of what stands after the first four bytes.
    ensures words { IfOk result (λ v. (4 ≤ length v.items) × (length v.items % 4 ≡ 0)) }
{
    let values = row.values();
    if values.len() < types.len() {
        let full = filled(alloc, types.len(), values)?;
        write_row(alloc, types, &full)
    } else {
        write_row(alloc, types, values.split_at(types.len()).0)
    }
}

/// These values, and null for each later column.
fn filled(alloc: Global, columns: usize, values: &[Value]) -> Result<Vec<Value>, AllocError>
    requires { length values.now ≤ columns }
    ensures { IfOk result (λ v. v.items ≡ filled columns values.now) }
{
    let mut out = Vec::with_capacity(alloc, columns)?;
    for value in values {
        out.push(value.copy(alloc)?)?;
    }
    for _ in values.len()..columns {
        out.push(Value::Null)?;
    }
    Ok(out)
}

/// The bytes of one value for each column.
fn write_row(alloc: Global, types: &[ColType], values: &[Value]) -> Result<Vec<u8>, AllocError>
    requires { length values.now ≡ length types.now }
    ensures bytes { IfOk result (λ v. v.items ≡ bytes_of types.now values.now) }
    ensures short { IfOk result (λ v. length v.items < 2 ^ 31) }
    ensures words { IfOk result (λ v. (4 ≤ length v.items) × (length v.items % 4 ≡ 0)) }
{
    let size = row_size(values)?;
    let mut out = Vec::with_capacity(alloc, size)?;
    push_count(&mut out, types.len() as u32)?;
    push_null_bytes(&mut out, values)?;
    push_slots(&mut out, fixed_size(types.len()), types, values)?;
    push_tails(&mut out, values)?;
    Ok(out)
}

/// How many bytes of a body stand before its tails.
pub(crate) fn fixed_size(columns: usize) -> usize
    requires { columns < 2 ^ 32 }
    ensures { result ≡ fixed_size columns }
{
    null_count(columns) + 8 * columns
}

/// How many bytes a row of these values takes, where these are fewer than `LIMIT`.
fn row_size(values: &[Value]) -> Result<usize, AllocError>
    ensures size { IfOk result (λ n. n ≡ 4 + fixed_size (length values.now) + length (flat_map tail values.now)) }
    ensures bound { IfOk result (λ n. n < 2 ^ 31) }
{
    if values.len() >= LIMIT {
        return Err(AllocError);
    }
    let mut size = 4 + fixed_size(values.len());
    for value in values {
        if size >= LIMIT {
            return Err(AllocError);
        }
        size += value_tail_size(value);
    }
    if size >= LIMIT {
        return Err(AllocError);
    }
    Ok(size)
}

/// How many bytes the tail of a value takes.
#[tactic(auto, unfolding(crate::specs::Row::tail))]
fn value_tail_size(value: &Value) -> usize
    ensures size { result ≡ length (tail value.now) }
    ensures bound { result < 2 ^ 63 + 8 }
{
    match value {
        Value::Text(text) => tail_size(text.as_bytes()),
        Value::Bytes(bytes) => tail_size(bytes.as_bytes()),
        _ => 0,
    }
}

/// Adds the slots of values, whose tails stand from this offset of the body on.
fn push_slots(
    out: &mut Vec<u8>,
    offset: usize,
    types: &[ColType],
    values: &[Value],
) -> Result<(), AllocError>
    requires same { length values.now ≡ length types.now }
    requires bound { offset + length (flat_map tail values.now) < 2 ^ 31 }
    ensures { OnOk result (out.new.items ≡ out.old.items ++ slots offset types.now values.now) }
{
    let mut offset = offset;
    for i in 0..types.len() {
        push_slot(out, offset, types[i], &values[i])?;
        offset += value_tail_size(&values[i]);
    }
    Ok(())
}

/// Adds the slot of a value, whose tail would stand at this offset of the body.
#[tactic(auto, unfolding(crate::specs::Row::slot))]
fn push_slot(
    out: &mut Vec<u8>,
    offset: usize,
    kind: ColType,
    value: &Value,
) -> Result<(), AllocError>
    requires { offset + length (tail value.now) < 2 ^ 31 }
    ensures { OnOk result (out.new.items ≡ out.old.items ++ slot offset kind value.now) }
{
    match value {
        Value::Null => push_zeros(out, 8),
        Value::Bool(flag) => push_number(out, u64::from(*flag)),
        Value::Int(number) => push_number(out, cut(kind, number.cast_unsigned())),
        Value::Day(day) => push_number(out, u64::from(day.cast_unsigned())),
        Value::Millis(millis) => push_number(out, millis.cast_unsigned()),
        Value::Text(text) => push_text_slot(out, offset, text.as_bytes()),
        Value::Bytes(bytes) => push_text_slot(out, offset, bytes.as_bytes()),
    }
}

/// A number, cut to the bits of a type.
fn cut(kind: ColType, number: u64) -> u64
    ensures { result ≡ cut kind number }
{
    match kind {
        ColType::TinyInt => number % 0x100,
        ColType::SmallInt => number % 0x1_0000,
        ColType::Int => number % 0x1_0000_0000,
        _ => number,
    }
}

/// Adds the tails of values.
fn push_tails(out: &mut Vec<u8>, values: &[Value]) -> Result<(), AllocError>
    ensures { OnOk result (out.new.items ≡ out.old.items ++ flat_map tail values.now) }
{
    for value in values {
        push_tail(out, value)?;
    }
    Ok(())
}

/// Adds the tail of a value.
#[tactic(auto, unfolding(crate::specs::Row::tail))]
fn push_tail(out: &mut Vec<u8>, value: &Value) -> Result<(), AllocError>
    ensures { OnOk result (out.new.items ≡ out.old.items ++ tail value.now) }
{
    match value {
        Value::Text(text) => push_text_tail(out, text.as_bytes()),
        Value::Bytes(bytes) => push_text_tail(out, bytes.as_bytes()),
        _ => Ok(()),
    }
}
