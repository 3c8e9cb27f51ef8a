//! Partial updates: the columns in no sequence group, and those of a group.

ghost use Rattle.std.specs.Prelude.{◌≡◌, IfOk};
ghost use Rattle.std.specs.List.{list_all};
ghost use Rattle.std.specs.Option.{option_copied};
ghost use Rattle.std.specs.Ordering.{is_le};
ghost use Rattle.pm_values.specs.Order.{value_cmp};
ghost use Rattle.pm_model_history.specs.ColumnValue.{is_leading, leading_row, left_by, group_value, updated_value};
ghost use Rattle.pm_model_history.specs.Merge.{value_at};

use crate::values::{adding, is_null, last_value, non_null, value_at, values_at};
use pm_model_history::index_of;
use pm_schema::{Listed, TableSchema};
use pm_values::{Kind, Row, Txt, Value};
use std::alloc::{AllocError, Global};

/// The value of a column in that group, or in none.
pub(crate) fn updated_value(
    alloc: Global,
    schema: &TableSchema,
    index: usize,
    group: Option<&(Txt, Listed<Txt>)>,
    rows: &[(Kind, Row)],
) -> Result<Value, AllocError>
    ensures { IfOk result (λ value.
        value ≡ updated_value schema.now index (option_copied group.entry) rows.now) }
{
    match group {
        Some(group) => group_value(alloc, index_of(schema, group.0.as_str()), index, rows),
        None => {
            let rows = adding(alloc, rows)?;
            let values = values_at(alloc, index, rows.as_slice())?;
            let values = non_null(alloc, values.as_slice())?;
            last_value(alloc, values.as_slice())
        }
    }
}

/// The value of a column in the group that the column at `lead` leads.
fn group_value(
    alloc: Global,
    lead: usize,
    index: usize,
    rows: &[(Kind, Row)],
) -> Result<Value, AllocError>
    ensures { IfOk result (λ value. value ≡ group_value lead index rows.now) }
{
    match leading_row(alloc, lead, rows)? {
        Some(row) => left_by(alloc, lead, index, row),
        None => Ok(Value::Null),
    }
}

/// What a group's leading row leaves in a column.
fn left_by(alloc: Global, lead: usize, index: usize, row: &(Kind, Row)) -> Result<Value, AllocError>
    ensures { IfOk result (λ value. value ≡ left_by lead index row.now) }
{
    if row.0.retracts() && index != lead {
        return Ok(Value::Null);
    }
    value_at(alloc, &row.1, index)
}

/// The last of the rows with the greatest leading value.
fn leading_row<'a>(
    alloc: Global,
    lead: usize,
    rows: &'a [(Kind, Row)],
) -> Result<Option<&'a (Kind, Row)>, AllocError>
    ensures { IfOk result (λ row. option_copied row ≡ leading_row lead rows.now) }
{
    let mut last = None;
    for row in rows {
        if is_leading(alloc, lead, rows, row)? {
            last = Some(row);
        }
    }
    Ok(last)
}

/// Whether the row has a leading value, and none of the rows has a greater one.
fn is_leading(
    alloc: Global,
    lead: usize,
    rows: &[(Kind, Row)],
    row: &(Kind, Row),
) -> Result<bool, AllocError>
    ensures { IfOk result (λ is. is ≡ is_leading lead rows.now row.now) }
{
    let value = value_at(alloc, &row.1, lead)?;
    let greatest = none_exceeds(alloc, lead, rows, &value)?;
    Ok(!is_null(&value) && greatest)
}

/// Whether no row has a greater leading value.
fn none_exceeds(
    alloc: Global,
    lead: usize,
    rows: &[(Kind, Row)],
    value: &Value,
) -> Result<bool, AllocError>
    ensures { IfOk result (λ none. none
        ≡ list_all (λ other. is_le (value_cmp (value_at other.1 lead) value.now)) rows.now) }
{
    for (_, row) in rows {
        if !value_at(alloc, row, lead)?.cmp(value).is_le() {
            return Ok(false);
        }
    }
    Ok(true)
}
