//! The values of a column, and the rows that add.

ghost use Rattle.std.specs.Prelude.{◌≡◌, None, IfOk};
ghost use Rattle.std.specs.List.{last_or};
ghost use Rattle.std.specs.Option.{option_copied};
ghost use Rattle.pm_model_history.specs.ColumnValue.{values_at, is_null, non_null, first_value, last_value, adding};
ghost use Rattle.pm_model_history.specs.Merge.{value_at};

use pm_values::{Kind, Row, Value};
use std::alloc::{AllocError, Global};

/// The value at an index, null where there is none.
pub(crate) fn value_at(alloc: Global, row: &Row, index: usize) -> Result<Value, AllocError>
    ensures { IfOk result (λ value. value ≡ value_at row.now index) }
{
    match row.values().get(index) {
        Some(value) => value.copy(alloc),
        None => Ok(Value::Null),
    }
}

/// The values of a column in rows.
pub(crate) fn values_at(
    alloc: Global,
    index: usize,
    rows: &[(Kind, Row)],
) -> Result<Vec<Value>, AllocError>
    ensures { IfOk result (λ values. values.items ≡ values_at index rows.now) }
{
    let mut values = Vec::with_capacity(alloc, rows.len())?;
    for (_, row) in rows {
        values.push(value_at(alloc, row, index)?)?;
    }
    Ok(values)
}

/// Whether the value is null.
pub(crate) fn is_null(value: &Value) -> bool
    ensures { result ≡ is_null value.now }
{
    matches!(value, Value::Null)
}

/// The values that aren't null.
pub(crate) fn non_null(alloc: Global, values: &[Value]) -> Result<Vec<Value>, AllocError>
    ensures { IfOk result (λ rest. rest.items ≡ non_null values.now) }
{
    let mut rest = Vec::new(alloc);
    for value in values {
        if !is_null(value) {
            rest.push(value.copy(alloc)?)?;
        }
    }
    Ok(rest)
}

/// The first of values, null where there is none.
pub(crate) fn first_value(alloc: Global, values: &[Value]) -> Result<Value, AllocError>
    ensures { IfOk result (λ value. value ≡ first_value values.now) }
{
    match values.split_first() {
        Some((value, _)) => value.copy(alloc),
        None => Ok(Value::Null),
    }
}

/// The last of values, null where there is none.
pub(crate) fn last_value(alloc: Global, values: &[Value]) -> Result<Value, AllocError>
    ensures { IfOk result (λ value. value ≡ last_value values.now) }
{
    match last_of(values) {
        Some(value) => value.copy(alloc),
        None => Ok(Value::Null),
    }
}

/// The last of items.
pub(crate) fn last_of<T>(items: &[T]) -> Option<&T>
    ensures { option_copied result ≡ last_or None items.now }
{
    let mut last = None;
    for item in items {
        last = Some(item);
    }
    last
}

/// The rows that add.
pub(crate) fn adding(alloc: Global, rows: &[(Kind, Row)]) -> Result<Vec<(Kind, Row)>, AllocError>
    ensures { IfOk result (λ some. some.items ≡ adding rows.now) }
{
    let mut some = Vec::new(alloc);
    for (kind, row) in rows {
        if !kind.retracts() {
            some.push((*kind, row.copy(alloc)?))?;
        }
    }
    Ok(some)
}
