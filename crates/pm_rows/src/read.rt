//! From a line to a row.

ghost use Rattle.std.specs.Prelude.{◌≡◌, ℤ, ◌≤ℤ◌, length, map, IfOk};
ghost use Rattle.serde_json.specs.View.{view};
ghost use Rattle.pm_values.specs.Fits.{Fits, FitsColumn, IsInType};
ghost use Rattle.pm_values.specs.declared.value.Value.TheVariants.{Int};
ghost use Rattle.pm_base.specs.Outcome.{Gives};
ghost use Rattle.pm_rows.specs.Reading.{fault_of, json_in, items_in, kind_in, row_of_items, row_of};
ghost use Rattle.pm_rows.specs.Reading.{truth_at, integer_at, whole_at, text_at, bytes_at, day_at};
ghost use Rattle.pm_rows.specs.Reading.{value_at, item_at, values_at};

use crate::fault::RowFault;
use pm_value_text::{parse_date, parse_hex};
use pm_values::{Blob, ColType, Column, Kind, Row, Txt, Value, Why};
use serde_json::Value as Json;
use std::alloc::Global;

/// The kind and the row of a line, which may have white space of JSON around its array. The
/// faults are tried in the order of `Why`, those of an item column by column.
#[tactic(auto, unfolding(crate::specs::Reading::row_of))]
pub fn read_row(alloc: Global, columns: &[Column], line: &[u8]) -> Result<(Kind, Row), RowFault>
    ensures exact { Gives (λ x. x) fault_of result (row_of columns.now line.now) }
    ensures fits { IfOk result (λ x. Fits columns.now x.1) }
{
    let json = read_json(alloc, line)?;
    let items = read_array(&json)?;
    read_items(alloc, columns, items)
}

/// The JSON of a line.
fn read_json(alloc: Global, line: &[u8]) -> Result<Json, RowFault>
    ensures { Gives view fault_of result (json_in line.now) }
{
    match Json::from_slice(alloc, line) {
        Ok(json) => Ok(json),
        Err(e) if e.is_memory() => Err(RowFault::Memory),
        Err(_) => Err(RowFault::Bad(Why::Json, 0)),
    }
}

/// The items of an array.
fn read_array(json: &Json) -> Result<&[Json], RowFault>
    ensures { Gives (λ items. map view items.now) fault_of result (items_in (view json.now)) }
{
    match json.as_array() {
        Some(items) => Ok(items.as_slice()),
        None => Err(RowFault::Bad(Why::Array, 0)),
    }
}

/// The kind and the row of an array's items.
fn read_items(alloc: Global, columns: &[Column], items: &[Json]) -> Result<(Kind, Row), RowFault>
    ensures exact { Gives (λ x. x) fault_of result (row_of_items columns.now (map view items.now)) }
    ensures fits { IfOk result (λ x. Fits columns.now x.1) }
{
    let Some((first, items)) = items.split_first() else {
        return Err(RowFault::Bad(Why::Kind, 0));
    };
    let kind = read_kind(first)?;
    if items.len() != columns.len() {
        return Err(RowFault::Bad(Why::Count, 0));
    }
    let values = read_values(alloc, columns, items)?;
    Ok((kind, Row::new(values)))
}

/// The kind that an item names.
fn read_kind(item: &Json) -> Result<Kind, RowFault>
    ensures { Gives (λ kind. kind) fault_of result (kind_in (view item.now)) }
{
    match item.as_str() {
        Some("+I") => Ok(Kind::Insert),
        Some("-U") => Ok(Kind::UpdateBefore),
        Some("+U") => Ok(Kind::UpdateAfter),
        Some("-D") => Ok(Kind::Delete),
        _ => Err(RowFault::Bad(Why::Kind, 0)),
    }
}

/// The values of the items, one for each column.
fn read_values(alloc: Global, columns: &[Column], items: &[Json]) -> Result<Vec<Value>, RowFault>
    requires count { length items.now ≡ length columns.now }
    ensures exact { Gives (λ v. v.items) fault_of result (values_at 0 columns.now (map view items.now)) }
    ensures fits { IfOk result (λ v. Fits columns.now v.items) }
{
    let mut values = Vec::with_capacity(alloc, columns.len())?;
    for (index, column) in columns.iter().enumerate() {
        values.push(read_item(alloc, index, column, &items[index])?)?;
    }
    Ok(values)
}

/// The value of an item in the column at the index, from 0.
fn read_item(alloc: Global, index: usize, column: &Column, item: &Json) -> Result<Value, RowFault>
    ensures exact { Gives (λ v. v) fault_of result (item_at index column.now (view item.now)) }
    ensures fits { IfOk result (FitsColumn column.now) }
{
    if !item.is_null() {
        read_value(alloc, index, column.kind, item)
    } else if column.nullable {
        Ok(Value::Null)
    } else {
        Err(RowFault::Bad(Why::Null, index))
    }
}

/// The value of an item that isn't null, in a column of that type at the index.
fn read_value(alloc: Global, index: usize, kind: ColType, item: &Json) -> Result<Value, RowFault>
    ensures exact { Gives (λ v. v) fault_of result (value_at index kind (view item.now)) }
    ensures fits { IfOk result (IsInType kind) }
{
    match kind {
        ColType::Boolean => read_truth(index, item),
        ColType::TinyInt => read_whole(index, i64::from(i8::MIN), i64::from(i8::MAX), item),
        ColType::SmallInt => read_whole(index, i64::from(i16::MIN), i64::from(i16::MAX), item),
        ColType::Int => read_whole(index, i64::from(i32::MIN), i64::from(i32::MAX), item),
        ColType::BigInt => read_whole(index, i64::MIN, i64::MAX, item),
        ColType::Text => read_text(alloc, index, item),
        ColType::Bytes => read_bytes(alloc, index, item),
        ColType::Date => read_day(index, item),
        ColType::Timestamp => Ok(Value::Millis(read_integer(index, i64::MIN, i64::MAX, item)?)),
    }
}

/// The value of an item in a BOOLEAN column at the index.
fn read_truth(index: usize, item: &Json) -> Result<Value, RowFault>
    ensures exact { Gives (λ v. v) fault_of result (truth_at index (view item.now)) }
    ensures fits { IfOk result (IsInType ColType.Boolean) }
{
    match item.as_bool() {
        Some(b) => Ok(Value::Bool(b)),
        None => Err(RowFault::Bad(Why::Type, index)),
    }
}

/// The value of an item in a column of integers from the low one to the high one.
fn read_whole(index: usize, low: i64, high: i64, item: &Json) -> Result<Value, RowFault>
    ensures exact { Gives (λ v. v) fault_of result (whole_at index low high (view item.now)) }
    ensures within { IfOk result (λ v. (n : ℤ) × (v ≡ Int n) × (low ≤ℤ n) × (n ≤ℤ high)) }
{
    Ok(Value::Int(read_integer(index, low, high, item)?))
}

/// The integer of an item, from the low one to the high one.
fn read_integer(index: usize, low: i64, high: i64, item: &Json) -> Result<i64, RowFault>
    ensures exact { Gives (λ n. n) fault_of result (integer_at index low high (view item.now)) }
    ensures within { IfOk result (λ n. (low ≤ℤ n) × (n ≤ℤ high)) }
{
    match item.as_i64() {
        Some(n) if low <= n && n <= high => Ok(n),
        Some(_) => Err(RowFault::Bad(Why::Range, index)),
        None if item.is_u64() => Err(RowFault::Bad(Why::Range, index)),
        None => Err(RowFault::Bad(Why::Type, index)),
    }
}

/// The value of an item in a STRING column at the index.
fn read_text(alloc: Global, index: usize, item: &Json) -> Result<Value, RowFault>
    ensures exact { Gives (λ v. v) fault_of result (text_at index (view item.now)) }
    ensures fits { IfOk result (IsInType ColType.Text) }
{
    match item.as_str() {
        Some(text) => Ok(Value::Text(Txt::from_str(alloc, text)?)),
        None => Err(RowFault::Bad(Why::Type, index)),
    }
}

/// The value of an item in a BYTES column at the index.
fn read_bytes(alloc: Global, index: usize, item: &Json) -> Result<Value, RowFault>
    ensures exact { Gives (λ v. v) fault_of result (bytes_at index (view item.now)) }
    ensures fits { IfOk result (IsInType ColType.Bytes) }
{
    let Some(text) = item.as_str() else {
        return Err(RowFault::Bad(Why::Type, index));
    };
    match parse_hex(alloc, text)? {
        Some(bytes) => Ok(Value::Bytes(Blob::new(bytes))),
        None => Err(RowFault::Bad(Why::Range, index)),
    }
}

/// The value of an item in a DATE column at the index.
fn read_day(index: usize, item: &Json) -> Result<Value, RowFault>
    ensures exact { Gives (λ v. v) fault_of result (day_at index (view item.now)) }
    ensures fits { IfOk result (IsInType ColType.Date) }
{
    let Some(text) = item.as_str() else {
        return Err(RowFault::Bad(Why::Type, index));
    };
    match parse_date(text) {
        Some(day) => Ok(Value::Day(day)),
        None => Err(RowFault::Bad(Why::Range, index)),
    }
}
