//! The bytes of rows, written from where they stand. A row that has another number of values than there are columns, or
//! a value that isn't of its column's type, gives out of memory, and so does a sequence number above 2^62 - 1.

ghost use Rattle.std.specs.Prelude.{◌≡◌, ◌≤◌, OnOk, map, pos};
ghost use Rattle.pm_avro_data.specs.Adding.{Adds};
ghost use Rattle.pm_avro_data.specs.Datum.{int, items_of, long, null, record_of, union_of};
ghost use Rattle.pm_avro_data.specs.HasType.{HasType};
ghost use Rattle.pm_model_history.specs.Merge.{key_of, value_at};
ghost use Rattle.pm_row_slots.specs.Seen.{seen_value};
ghost use Rattle.pm_row_slots.specs.Slot.{placed_row};
ghost use Rattle.pm_values.specs.Kind.{code_of};
ghost use Rattle.pm_run.specs.Kinds.{field_type, or_null, value_type};
ghost use Rattle.pm_run.specs.Row.{most_sequence, optional_data, row_data, scalar_data, value_data, values_data};
ghost use Rattle.pm_run.specs.Typed.{HaveFields, IsWritable};

use crate::placed::{kind_of, number_of, value_count};
use pm_avro_data::{add_boolean, add_branch, add_bytes, add_int, add_long, add_text};
use pm_row_slots::{PlacedRow, Seen, seen_of};
use pm_run::Field;
use pm_run_form::{MOST_SEQUENCE, TableForm};
use pm_values::{ColType, Kind, Value};
use std::alloc::AllocError;

/// Adds a row.
pub(crate) fn add_row(out: &mut Vec<u8>, form: &TableForm, row: PlacedRow) -> Result<(), AllocError>
    ensures added { OnOk result (Adds out.old.items out.new.items (row_data form.now (placed_row row.entry))) }
    ensures writable { OnOk result (IsWritable form.now (placed_row row.entry)) }
{
    add_keys(out, &form.keys, &form.places, row)?;
    add_sequence(out, number_of(row))?;
    add_kind(out, kind_of(row))?;
    add_values(out, &form.columns, row)?;
    Ok(())
}

/// Adds a sequence number up to the greatest.
fn add_sequence(out: &mut Vec<u8>, seq: u64) -> Result<(), AllocError>
    ensures added { OnOk result (Adds out.old.items out.new.items (long (pos seq))) }
    ensures within { OnOk result (seq ≤ most_sequence) }
{
    match i64::try_from(seq) {
        Ok(number) if seq <= MOST_SEQUENCE => add_long(out, number),
        _ => Err(AllocError),
    }
}

/// Adds a kind's number.
fn add_kind(out: &mut Vec<u8>, kind: Kind) -> Result<(), AllocError>
    ensures { OnOk result (Adds out.old.items out.new.items (int (pos (code_of kind)))) }
{
    add_int(out, i32::from(kind.code()))
}

/// Adds the values that a row has at the indexes.
fn add_keys(
    out: &mut Vec<u8>,
    fields: &[Field],
    places: &[usize],
    row: PlacedRow,
) -> Result<(), AllocError>
    ensures added { OnOk result (Adds out.old.items out.new.items
        (record_of (items_of (values_data fields.now (key_of places.now (placed_row row.entry).row))))) }
    ensures typed { OnOk result
        (HaveFields fields.now (values_data fields.now (key_of places.now (placed_row row.entry).row))) }
{
    if fields.len() != places.len() {
        return Err(AllocError);
    }
    for (index, field) in fields.iter().enumerate() {
        add_at(out, field, row, places[index])?;
    }
    Ok(())
}

/// Adds a row's values.
fn add_values(out: &mut Vec<u8>, fields: &[Field], row: PlacedRow) -> Result<(), AllocError>
    ensures added { OnOk result (Adds out.old.items out.new.items
        (record_of (items_of (values_data fields.now (placed_row row.entry).row)))) }
    ensures typed { OnOk result (HaveFields fields.now (values_data fields.now (placed_row row.entry).row)) }
{
    if fields.len() != value_count(row) {
        return Err(AllocError);
    }
    for (index, field) in fields.iter().enumerate() {
        add_at(out, field, row, index)?;
    }
    Ok(())
}

/// Adds the value that a row has of a field at the index; out of memory where it has none.
#[inline(always)]
fn add_at(out: &mut Vec<u8>, field: &Field, row: PlacedRow, index: usize) -> Result<(), AllocError>
    ensures added { OnOk result (Adds out.old.items out.new.items
        (value_data field.now (value_at (placed_row row.entry).row index))) }
    ensures typed { OnOk result
        (HasType (field_type field.now) (value_data field.now (value_at (placed_row row.entry).row index))) }
{
    match row {
        PlacedRow::Lying(seen) => add_seen(out, field, &seen.row, index),
        PlacedRow::Own(own) => add_own(out, field, own.row.values(), index),
    }
}

/// The same of values that lie in bytes or are lent.
#[inline(always)]
fn add_seen(out: &mut Vec<u8>, field: &Field, row: &[Seen], index: usize) -> Result<(), AllocError>
    ensures added { OnOk result (Adds out.old.items out.new.items
        (value_data field.now (value_at (map seen_value row.now) index))) }
    ensures typed { OnOk result
        (HasType (field_type field.now) (value_data field.now (value_at (map seen_value row.now) index))) }
{
    match row.get(index) {
        Some(value) => add_value(out, field, *value),
        None => Err(AllocError),
    }
}

/// The same of values in memory of their own.
fn add_own(out: &mut Vec<u8>, field: &Field, row: &[Value], index: usize) -> Result<(), AllocError>
    ensures added { OnOk result (Adds out.old.items out.new.items
        (value_data field.now (value_at row.now index))) }
    ensures typed { OnOk result (HasType (field_type field.now) (value_data field.now (value_at row.now index))) }
{
    match row.get(index) {
        Some(value) => add_value(out, field, seen_of(value)),
        None => Err(AllocError),
    }
}

/// Adds a field's value.
#[inline(always)]
fn add_value(out: &mut Vec<u8>, field: &Field, value: Seen) -> Result<(), AllocError>
    ensures added { OnOk result (Adds out.old.items out.new.items (value_data field.now (seen_value value.entry))) }
    ensures typed { OnOk result (HasType (field_type field.now) (value_data field.now (seen_value value.entry))) }
{
    if field.nullable {
        add_optional(out, field.kind, value)
    } else {
        add_scalar(out, field.kind, value)
    }
}

/// Adds a value that may be null.
#[inline(always)]
fn add_optional(out: &mut Vec<u8>, kind: ColType, value: Seen) -> Result<(), AllocError>
    ensures added { OnOk result (Adds out.old.items out.new.items (optional_data kind (seen_value value.entry))) }
    ensures typed { OnOk result (HasType (or_null (value_type kind)) (optional_data kind (seen_value value.entry))) }
{
    match value {
        Seen::Null => add_null(out),
        other => add_present(out, kind, other),
    }
}

/// Adds null, where another value may stand.
fn add_null(out: &mut Vec<u8>) -> Result<(), AllocError>
    ensures { OnOk result (Adds out.old.items out.new.items (union_of 0 null)) }
{
    add_branch(out, 0)?;
    Ok(())
}

/// Adds a value that isn't null, where null may stand.
fn add_present(out: &mut Vec<u8>, kind: ColType, value: Seen) -> Result<(), AllocError>
    ensures added { OnOk result (Adds out.old.items out.new.items
        (union_of 1 (scalar_data kind (seen_value value.entry)))) }
    ensures typed { OnOk result (HasType (value_type kind) (scalar_data kind (seen_value value.entry))) }
{
    add_branch(out, 1)?;
    add_scalar(out, kind, value)?;
    Ok(())
}

/// Adds a value that isn't null.
#[inline(always)]
fn add_scalar(out: &mut Vec<u8>, kind: ColType, value: Seen) -> Result<(), AllocError>
    ensures added { OnOk result (Adds out.old.items out.new.items (scalar_data kind (seen_value value.entry))) }
    ensures typed { OnOk result (HasType (value_type kind) (scalar_data kind (seen_value value.entry))) }
{
    match (kind, value) {
        (ColType::Boolean, Seen::Bool(truth)) => add_boolean(out, truth),
        (ColType::TinyInt | ColType::SmallInt | ColType::Int, Seen::Int(number)) => {
            add_narrow(out, number)
        }
        (ColType::BigInt, Seen::Int(number)) => add_long(out, number),
        (ColType::Text, Seen::Text(text)) => add_text(out, text),
        (ColType::Bytes, Seen::Bytes(content)) => add_bytes(out, content),
        (ColType::Date, Seen::Day(day)) => add_int(out, day),
        (ColType::Timestamp, Seen::Millis(millis)) => add_long(out, millis),
        _ => Err(AllocError),
    }
}

/// Adds an integer that is an int; out of memory for another one.
fn add_narrow(out: &mut Vec<u8>, number: i64) -> Result<(), AllocError>
    ensures { OnOk result (Adds out.old.items out.new.items (int number)) }
{
    match i32::try_from(number) {
        Ok(number) => add_int(out, number),
        Err(_) => Err(AllocError),
    }
}
