//! Reading a row.

ghost use Rattle.std.specs.Prelude.{◌≡◌, ◌+◌, ◌*◌, ◌≤◌, ◌<◌, ◌^◌, length, IfOk};
ghost use Rattle.pm_values.specs.Order.{Values};
ghost use Rattle.pm_binrow.specs.Row.{IsRow, IsShort, row_bytes};
ghost use Rattle.pm_binrow.specs.Answer.{Answers};
ghost use Rattle.pm_binrow.specs.Reading.{Yields, body_in, cell_in, cells_in, day_in, row_in, some_in, value_in, whole_in};

use crate::fault::BinFault;
use crate::fixed::{read_count, read_slot};
use crate::null_bytes::{are_null_bytes, is_marked, null_count};
use crate::text::{is_zero, read_text};
use crate::writing::{LIMIT, fixed_size};
use pm_values::{Blob, ColType, Row, Txt, Value};
use std::alloc::Global;
use std::str;

/// The first day that is read, in days from 1970-01-01: 0001-01-01.
const FIRST_DAY: i32 = -719162;

/// The last one: 9999-12-31.
const LAST_DAY: i32 = 2932896;

/// The row of columns of these types whose bytes these are. Each value is null or in its type's range. `Bad` comes
/// exactly where the bytes are no such row's.
pub fn from_binary(alloc: Global, types: &[ColType], bytes: &[u8]) -> Result<Row, BinFault>
    ensures found { IfOk result (λ row. IsRow types.now row × IsShort types.now row
        × (bytes.now ≡ row_bytes types.now row)) }
    ensures value { Yields (λ row. row) result (row_in types.now bytes.now) }
    ensures only { (row : Values) → IsRow types.now row → IsShort types.now row
        → bytes.now ≡ row_bytes types.now row → Answers row result }
{
    Ok(Row::new(read_row(alloc, types, bytes)?))
}

/// The values of a row's bytes.
#[tactic(auto, unfolding(crate::specs::Reading::whole_in))]
fn read_row(alloc: Global, types: &[ColType], bytes: &[u8]) -> Result<Vec<Value>, BinFault>
    ensures { Yields (λ v. v.items) result (whole_in types.now bytes.now) }
{
    if bytes.len() >= LIMIT {
        return Err(BinFault::Bad);
    }
    let Some((count, body)) = bytes.split_first_chunk::<4>() else {
        return Err(BinFault::Bad);
    };
    if read_count(count) as usize != types.len() {
        return Err(BinFault::Bad);
    }
    read_body(alloc, types, body)
}

/// The values of a body.
#[tactic(auto, unfolding(crate::specs::Reading::body_in))]
fn read_body(alloc: Global, types: &[ColType], body: &[u8]) -> Result<Vec<Value>, BinFault>
    requires { length types.now < 2 ^ 32 }
    ensures { Yields (λ v. v.items) result (body_in types.now body.now) }
{
    if body.len() < fixed_size(types.len()) {
        return Err(BinFault::Bad);
    }
    let (nulls, rest) = body.split_at(null_count(types.len()));
    let (slots, tails) = rest.split_at(8 * types.len());
    let values = read_cells(alloc, types, nulls, body.len(), slots, tails)?;
    if are_null_bytes(nulls, &values) {
        Ok(values)
    } else {
        Err(BinFault::Bad)
    }
}

/// The values of slots and of all tails, in a body of this size.
fn read_cells(
    alloc: Global,
    types: &[ColType],
    nulls: &[u8],
    size: usize,
    slots: &[u8],
    tails: &[u8],
) -> Result<Vec<Value>, BinFault>
    requires slots { length slots.now ≡ 8 * length types.now }
    requires nulls { length types.now + 8 ≤ 8 * length nulls.now }
    ensures { Yields (λ v. v.items) result (cells_in size nulls.now 8 types.now slots.now tails.now) }
{
    let mut values = Vec::with_capacity(alloc, types.len())?;
    let mut places = slots;
    let mut left = tails;
    for i in 0..types.len() {
        let (slot, places_after) = places.split_first_chunk::<8>().ok_or(BinFault::Bad)?;
        let (value, left_after) = read_cell(
            alloc,
            types[i],
            is_marked(nulls, 8 + i),
            slot,
            size,
            left,
        )?;
        values.push(value)?;
        places = places_after;
        left = left_after;
    }
    if left.is_empty() {
        Ok(values)
    } else {
        Err(BinFault::Bad)
    }
}

/// The value of a slot, which is marked as null or isn't, and the later tails.
#[tactic(auto, unfolding(crate::specs::Reading::cell_in))]
fn read_cell<'a>(
    alloc: Global,
    kind: ColType,
    marked: bool,
    slot: &'a [u8; 8],
    size: usize,
    tails: &'a [u8],
) -> Result<(Value, &'a [u8]), BinFault>
    ensures { Yields (λ x. (x.0, x.1.now)) result (cell_in size kind marked slot.now tails.now) }
{
    if !marked {
        return read_some(alloc, kind, slot, size, tails);
    }
    if is_zero(slot) {
        Ok((Value::Null, tails))
    } else {
        Err(BinFault::Bad)
    }
}

/// The value of a slot that isn't null, and the later tails.
#[tactic(auto, unfolding(crate::specs::Reading::some_in))]
fn read_some<'a>(
    alloc: Global,
    kind: ColType,
    slot: &'a [u8; 8],
    size: usize,
    tails: &'a [u8],
) -> Result<(Value, &'a [u8]), BinFault>
    ensures { Yields (λ x. (x.0, x.1.now)) result (some_in size kind slot.now tails.now) }
{
    match kind {
        ColType::Text => {
            let (text, later) = read_text(size, slot, tails).ok_or(BinFault::Bad)?;
            match str::from_utf8(text) {
                Ok(text) => Ok((Value::Text(Txt::from_str(alloc, text)?), later)),
                Err(_) => Err(BinFault::Bad),
            }
        }
        ColType::Bytes => {
            let (bytes, later) = read_text(size, slot, tails).ok_or(BinFault::Bad)?;
            Ok((Value::Bytes(Blob::from_slice(alloc, bytes)?), later))
        }
        _ => {
            let value = value_in(kind, read_slot(slot)).ok_or(BinFault::Bad)?;
            Ok((value, tails))
        }
    }
}

/// The value of a number in a column of a type whose values have neither text nor bytes.
#[tactic(auto, unfolding(crate::specs::Reading::value_in))]
fn value_in(kind: ColType, number: u64) -> Option<Value>
    ensures { result ≡ value_in kind number }
{
    match kind {
        ColType::Boolean if number == 0 => Some(Value::Bool(false)),
        ColType::Boolean if number == 1 => Some(Value::Bool(true)),
        ColType::TinyInt if number < 0x100 => Some(Value::Int(i64::from(
            (number as u8).cast_signed(),
        ))),
        ColType::SmallInt if number < 0x1_0000 => Some(Value::Int(i64::from(
            (number as u16).cast_signed(),
        ))),
        ColType::Int if number < 0x1_0000_0000 => Some(Value::Int(i64::from(
            (number as u32).cast_signed(),
        ))),
        ColType::BigInt => Some(Value::Int(number.cast_signed())),
        ColType::Date if number < 0x1_0000_0000 => day_in((number as u32).cast_signed()),
        ColType::Timestamp => Some(Value::Millis(number.cast_signed())),
        _ => None,
    }
}

/// A day from 0001-01-01 to 9999-12-31.
fn day_in(day: i32) -> Option<Value>
    ensures { result ≡ day_in day }
{
    if FIRST_DAY <= day && day <= LAST_DAY {
        Some(Value::Day(day))
    } else {
        None
    }
}
