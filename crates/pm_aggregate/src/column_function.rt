//! The function of a column: any of them.

ghost use Rattle.std.specs.Prelude.{◌≡◌, IfOk};
ghost use Rattle.pm_aggregate.specs.ColumnFunction.{function_by, function_on, meaning_of};

use crate::aggregator::Aggregator;
use crate::ends::{FirstNonNullValue, FirstValue, LastNonNullValue, LastValue};
use crate::extremes::{Max, Min};
use crate::list_agg::ListAgg;
use crate::sum::Sum;
use crate::truths::{BoolAnd, BoolOr};
use pm_base::Txt;
use pm_columns::{delimiter_of, function_of, is_key, skips_retractions};
use pm_schema::{Function, TableSchema};
use pm_values::{Column, Value};
use std::alloc::{AllocError, Global};

/// The function of a column.
pub enum ColumnFunction {
    Sum(Sum),
    Max(Max),
    Min(Min),
    LastValue(LastValue),
    LastNonNullValue(LastNonNullValue),
    FirstValue(FirstValue),
    FirstNonNullValue(FirstNonNullValue),
    ListAgg(ListAgg),
    BoolAnd(BoolAnd),
    BoolOr(BoolOr),
}

impl Drop for ColumnFunction {
    fn drop(self) {
        match self {
            ColumnFunction::Sum(_a) => {}
            ColumnFunction::Max(_a) => {}
            ColumnFunction::Min(_a) => {}
            ColumnFunction::LastValue(_a) => {}
            ColumnFunction::LastNonNullValue(_a) => {}
            ColumnFunction::FirstValue(_a) => {}
            ColumnFunction::FirstNonNullValue(_a) => {}
            ColumnFunction::ListAgg(_a) => {}
            ColumnFunction::BoolAnd(_a) => {}
            ColumnFunction::BoolOr(_a) => {}
        }
    }
}

/// The function that the schema gives to the column, or nothing where the column is one of the key.
pub(crate) fn function_on(
    alloc: Global,
    schema: &TableSchema,
    column: &Column,
) -> Result<Option<ColumnFunction>, AllocError>
    ensures { IfOk result (λ f. f ≡ function_on schema.now column.now) }
{
    if is_key(schema, column) {
        return Ok(None);
    }
    Ok(Some(function_by(alloc, function_of(schema, column), schema, column)?))
}

/// The function of that name, for the column.
fn function_by(
    alloc: Global,
    function: Function,
    schema: &TableSchema,
    column: &Column,
) -> Result<ColumnFunction, AllocError>
    ensures { IfOk result (λ f. f ≡ function_by function schema.now column.now) }
{
    let kind = column.kind;
    let skips = skips_retractions(schema, column);
    Ok(match function {
        Function::Sum => ColumnFunction::Sum(Sum { kind, skips }),
        Function::Max => ColumnFunction::Max(Max { kind, skips }),
        Function::Min => ColumnFunction::Min(Min { kind, skips }),
        Function::LastValue => ColumnFunction::LastValue(LastValue { kind }),
        Function::LastNonNullValue => {
            ColumnFunction::LastNonNullValue(LastNonNullValue { kind, skips })
        }
        Function::FirstValue => ColumnFunction::FirstValue(FirstValue { kind }),
        Function::FirstNonNullValue => {
            ColumnFunction::FirstNonNullValue(FirstNonNullValue { kind, skips })
        }
        Function::ListAgg => ColumnFunction::ListAgg(ListAgg {
            kind,
            skips,
            delimiter: Txt::from_str(alloc, delimiter_of(schema, column))?,
        }),
        Function::BoolAnd => ColumnFunction::BoolAnd(BoolAnd { kind, skips }),
        Function::BoolOr => ColumnFunction::BoolOr(BoolOr { kind, skips }),
    })
}

impl Aggregator for ColumnFunction {
    ghost meaning = { meaning_of };

    fn accepts(&self, retract: bool) -> bool {
        match self {
            ColumnFunction::Sum(f) => f.accepts(retract),
            ColumnFunction::Max(f) => f.accepts(retract),
            ColumnFunction::Min(f) => f.accepts(retract),
            ColumnFunction::LastValue(f) => f.accepts(retract),
            ColumnFunction::LastNonNullValue(f) => f.accepts(retract),
            ColumnFunction::FirstValue(f) => f.accepts(retract),
            ColumnFunction::FirstNonNullValue(f) => f.accepts(retract),
            ColumnFunction::ListAgg(f) => f.accepts(retract),
            ColumnFunction::BoolAnd(f) => f.accepts(retract),
            ColumnFunction::BoolOr(f) => f.accepts(retract),
        }
    }

    fn lift(&self, alloc: Global, retract: bool, value: Value) -> Result<Value, AllocError> {
        match self {
            ColumnFunction::Sum(f) => f.lift(alloc, retract, value),
            ColumnFunction::Max(f) => f.lift(alloc, retract, value),
            ColumnFunction::Min(f) => f.lift(alloc, retract, value),
            ColumnFunction::LastValue(f) => f.lift(alloc, retract, value),
            ColumnFunction::LastNonNullValue(f) => f.lift(alloc, retract, value),
            ColumnFunction::FirstValue(f) => f.lift(alloc, retract, value),
            ColumnFunction::FirstNonNullValue(f) => f.lift(alloc, retract, value),
            ColumnFunction::ListAgg(f) => f.lift(alloc, retract, value),
            ColumnFunction::BoolAnd(f) => f.lift(alloc, retract, value),
            ColumnFunction::BoolOr(f) => f.lift(alloc, retract, value),
        }
    }

    fn combine(&self, alloc: Global, older: Value, newer: Value) -> Result<Value, AllocError> {
        match self {
            ColumnFunction::Sum(f) => f.combine(alloc, older, newer),
            ColumnFunction::Max(f) => f.combine(alloc, older, newer),
            ColumnFunction::Min(f) => f.combine(alloc, older, newer),
            ColumnFunction::LastValue(f) => f.combine(alloc, older, newer),
            ColumnFunction::LastNonNullValue(f) => f.combine(alloc, older, newer),
            ColumnFunction::FirstValue(f) => f.combine(alloc, older, newer),
            ColumnFunction::FirstNonNullValue(f) => f.combine(alloc, older, newer),
            ColumnFunction::ListAgg(f) => f.combine(alloc, older, newer),
            ColumnFunction::BoolAnd(f) => f.combine(alloc, older, newer),
            ColumnFunction::BoolOr(f) => f.combine(alloc, older, newer),
        }
    }
}
