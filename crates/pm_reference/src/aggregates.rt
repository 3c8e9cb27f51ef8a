//! Aggregation: what a function makes of a column over the rows that count.

ghost use Rattle.std.specs.Prelude.{◌≡◌, ℤ, pos, negsuc, ◌≤ℤ◌, ◌^◌, ◌-◌, IfOk, IfSome, string_bytes};
ghost use Rattle.std.specs.Int.{int_wrap};
ghost use Rattle.std.specs.List.{filter_map, list_all};
ghost use Rattle.std.specs.Option.{option_map, option_map_or};
ghost use Rattle.std.specs.Ordering.{is_le, is_ge};
ghost use Rattle.pm_values.specs.Order.{value_cmp};
ghost use Rattle.pm_values.specs.declared.value.Value.TheVariants.{Null, Bool as Truth};
ghost use Rattle.pm_model_history.specs.ColumnValue.{width_of, summand, sum_value, extreme_value, last_left, text_in, delimiter_of, joined_value, truth_in, all_value, any_value, aggregate_by};
ghost use Rattle.pm_reference.specs.Steps.{added, appended};

use crate::values::{first_value, last_of, last_value, non_null, value_at, values_at};
use pm_columns::{delimiter_of, wrapped};
use pm_schema::{Function, TableSchema};
use pm_values::{ColType, Column, Kind, Row, Txt, Value};
use std::alloc::{AllocError, Global};

/// What the function makes of the column at the index over the rows that count.
pub(crate) fn aggregate_by(
    alloc: Global,
    function: Function,
    schema: &TableSchema,
    column: &Column,
    index: usize,
    rows: &[(Kind, Row)],
) -> Result<Value, AllocError>
    ensures { IfOk result (λ value.
        value ≡ aggregate_by function schema.now column.now index rows.now) }
{
    let all = values_at(alloc, index, rows)?;
    let values = non_null(alloc, all.as_slice())?;
    match function {
        Function::Sum => Ok(sum_value(column.kind, index, rows)),
        Function::Max => greatest(alloc, values.as_slice()),
        Function::Min => least(alloc, values.as_slice()),
        Function::LastValue => last_left(alloc, index, rows),
        Function::LastNonNullValue => last_value(alloc, values.as_slice()),
        Function::FirstValue => first_value(alloc, all.as_slice()),
        Function::FirstNonNullValue => first_value(alloc, values.as_slice()),
        Function::ListAgg => joined_value(alloc, schema, column, all.as_slice()),
        Function::BoolAnd => Ok(all_value(all.as_slice())),
        Function::BoolOr => Ok(any_value(all.as_slice())),
    }
}

/// The sum of a column's integers, those of retractions negated, as far as it goes into the type.
fn sum_value(kind: ColType, index: usize, rows: &[(Kind, Row)]) -> Value
    ensures { result ≡ sum_value (width_of kind) (filter_map (summand index) rows.now) }
{
    let mut sum = None;
    for row in rows {
        sum = added(kind, sum, summand(index, row));
    }
    match sum {
        Some(n) => Value::Int(n),
        None => Value::Null,
    }
}

/// What a row adds to a sum.
fn summand(index: usize, row: &(Kind, Row)) -> Option<i128>
    ensures value { result ≡ summand index row.now }
    ensures low { IfSome result (λ n. negsuc (2 ^ 63 - 1) ≤ℤ n) }
    ensures high { IfSome result (λ n. n ≤ℤ pos (2 ^ 63)) }
{
    match row.1.values().get(index) {
        Some(Value::Int(n)) => {
            let n = i128::from(*n);
            Some(if row.0.retracts() { -n } else { n })
        }
        _ => None,
    }
}

/// What a sum comes to with one integer more, as far as it goes into the type.
fn added(kind: ColType, sum: Option<i64>, n: Option<i128>) -> Option<i64>
    requires low { IfSome n (λ n. negsuc (2 ^ 63 - 1) ≤ℤ n) }
    requires high { IfSome n (λ n. n ≤ℤ pos (2 ^ 63)) }
    ensures { result ≡ added (width_of kind) sum n }
{
    match n {
        Some(n) => Some(wrapped(kind, i128::from(sum.unwrap_or(0)) + n)),
        None => sum,
    }
}

/// The greatest of the values, null where there is none.
fn greatest(alloc: Global, values: &[Value]) -> Result<Value, AllocError>
    ensures { IfOk result (λ value. value ≡ extreme_value is_le values.now) }
{
    for value in values {
        if is_greatest(values, value) {
            return value.copy(alloc);
        }
    }
    Ok(Value::Null)
}

/// Whether none of the values is greater.
fn is_greatest(values: &[Value], value: &Value) -> bool
    ensures { result ≡ list_all (λ other. is_le (value_cmp other value.now)) values.now }
{
    for other in values {
        if !other.cmp(value).is_le() {
            return false;
        }
    }
    true
}

/// The least of the values, null where there is none.
fn least(alloc: Global, values: &[Value]) -> Result<Value, AllocError>
    ensures { IfOk result (λ value. value ≡ extreme_value is_ge values.now) }
{
    for value in values {
        if is_least(values, value) {
            return value.copy(alloc);
        }
    }
    Ok(Value::Null)
}

/// Whether none of the values is less.
fn is_least(values: &[Value], value: &Value) -> bool
    ensures { result ≡ list_all (λ other. is_ge (value_cmp other value.now)) values.now }
{
    for other in values {
        if !other.cmp(value).is_ge() {
            return false;
        }
    }
    true
}

/// The value of the last row, null where it retracts.
fn last_left(alloc: Global, index: usize, rows: &[(Kind, Row)]) -> Result<Value, AllocError>
    ensures { IfOk result (λ value. value ≡ last_left index rows.now) }
{
    match last_of(rows) {
        Some((kind, row)) if !kind.retracts() => value_at(alloc, row, index),
        _ => Ok(Value::Null),
    }
}

/// The texts with the column's delimiter between them, null where there is none.
fn joined_value(
    alloc: Global,
    schema: &TableSchema,
    column: &Column,
    values: &[Value],
) -> Result<Value, AllocError>
    ensures { IfOk result (λ value. value
        ≡ joined_value (delimiter_of schema.now column.now) (filter_map text_in values.now)) }
{
    joined(alloc, delimiter_of(schema, column), values)
}

/// The texts with the delimiter between them, null where there is none.
fn joined(alloc: Global, delimiter: &str, values: &[Value]) -> Result<Value, AllocError>
    ensures { IfOk result (λ value. value
        ≡ joined_value delimiter.now (filter_map text_in values.now)) }
{
    let mut all = None;
    for value in values {
        if let Value::Text(text) = value {
            all = Some(appended(alloc, all, delimiter, text.as_str())?);
        }
    }
    match all {
        Some(text) => Ok(Value::Text(Txt::from_str(alloc, text.as_str())?)),
        None => Ok(Value::Null),
    }
}

/// The text after those before it, with the delimiter between them, or alone where there is none.
fn appended(
    alloc: Global,
    before: Option<String>,
    delimiter: &str,
    text: &str,
) -> Result<String, AllocError>
    ensures { IfOk result (λ all. string_bytes all
        ≡ appended (option_map string_bytes before) delimiter.now text.now) }
{
    let mut all = match before {
        Some(mut all) => {
            all.push_str(delimiter)?;
            all
        }
        None => String::new(alloc),
    };
    all.push_str(text)?;
    Ok(all)
}

/// Whether all of the truths hold, null where there is none.
fn all_value(values: &[Value]) -> Value
    ensures { result ≡ all_value (filter_map truth_in values.now) }
{
    let mut all = None;
    for value in values {
        if let Value::Bool(b) = value {
            all = Some(all.unwrap_or(true) && *b);
        }
    }
    truth_value(all)
}

/// Whether one of the truths holds, null where there is none.
fn any_value(values: &[Value]) -> Value
    ensures { result ≡ any_value (filter_map truth_in values.now) }
{
    let mut any = None;
    for value in values {
        if let Value::Bool(b) = value {
            any = Some(any.unwrap_or(false) || *b);
        }
    }
    truth_value(any)
}

/// The truth as a value, null where there is none.
fn truth_value(truth: Option<bool>) -> Value
    ensures { result ≡ option_map_or Truth truth Null }
{
    match truth {
        Some(b) => Value::Bool(b),
        None => Value::Null,
    }
}
