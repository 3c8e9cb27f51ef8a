//! The engine that folds each column.

ghost use Rattle.std.specs.Prelude.{◌≡◌, map, All, IfOk};
ghost use Rattle.pm_options.specs.declared.kinds.EngineKind.TheVariants as engines;
ghost use Rattle.pm_engine.specs.OfSchema.{meaning_of};
ghost use Rattle.pm_aggregate.specs.Aggregation.{AreCombined, AreLifted, CanAggregate, IsCombined, IsLifted, Takes};
ghost use Rattle.pm_aggregate.specs.ColumnFunction.{function_on};

use crate::aggregator::Aggregator;
use crate::column_function::{ColumnFunction, function_on};
use crate::values::next_value;
use pm_columns::verdict_of;
use pm_engine::{MergeEngine, Needed, Stored, Verdict};
use pm_schema::TableSchema;
use pm_values::{Column, Kind, Row, Value};
use std::alloc::{AllocError, Global};

/// Folds each column of its schema by the column's function, over the rows of each key.
#[derive(Drop)]
pub struct Aggregation {
    pub schema: TableSchema,
    functions: Vec<Option<ColumnFunction>>,
    ghost aggregates: { schema.options.engine ≡ engines.Aggregation },
    ghost can: { CanAggregate schema },
    ghost are: { functions.items ≡ map (function_on schema) schema.columns },
}

impl Aggregation {
    /// The engine of a schema that names it and can be aggregated.
    pub fn of_schema(alloc: Global, schema: &TableSchema) -> Result<Aggregation, AllocError>
        requires engine { schema.now.options.engine ≡ engines.Aggregation }
        requires can { CanAggregate schema.now }
        ensures schema { IfOk result (λ engine. engine.schema ≡ schema.now) }
        ensures meaning { IfOk result (λ engine.
            ⟦<Aggregation as MergeEngine>⟧.meaning engine ≡ meaning_of schema.now) }
    {
        let functions = functions_of(alloc, schema)?;
        match schema.copy(alloc) {
            Ok(schema) => Ok(Aggregation { schema, functions }),
            Err(e) => {
                drop(functions);
                Err(e)
            }
        }
    }
}

/// The functions of a schema's columns.
fn functions_of(
    alloc: Global,
    schema: &TableSchema,
) -> Result<Vec<Option<ColumnFunction>>, AllocError>
    ensures { IfOk result (λ functions. functions.items ≡ map (function_on schema.now) schema.now.columns) }
{
    let columns = schema.columns.as_slice();
    let mut functions = Vec::with_capacity(alloc, columns.len())?;
    for column in columns {
        functions.push(function_on(alloc, schema, column)?)?;
    }
    Ok(functions)
}

impl MergeEngine for Aggregation {
    ghost meaning = { λ engine. meaning_of engine.schema };

    fn accepts(&self, kind: Kind) -> Verdict {
        verdict_of(&self.schema, kind)
    }

    fn lift(&self, alloc: Global, kind: Kind, row: Row) -> Result<Stored, AllocError> {
        Ok(Stored {
            kind: Kind::Insert,
            row: lifted_row(alloc, self.functions.as_slice(), kind, row)?,
        })
    }

    fn combine(&self, alloc: Global, older: Stored, newer: Stored) -> Result<Stored, AllocError> {
        Ok(Stored {
            kind: Kind::Insert,
            row: combined_row(alloc, self.functions.as_slice(), older.row, newer.row)?,
        })
    }

    fn needed(&self) -> Needed {
        Needed::Both
    }

    fn stores_rows(&self) -> bool {
        false
    }

    fn shows(&self, _stored: &Stored) -> bool {
        true
    }

    fn droppable(&self, _stored: &Stored) -> bool {
        false
    }

    fn droppable_law() {}
}

/// The stored row of one row.
fn lifted_row(
    alloc: Global,
    functions: &[Option<ColumnFunction>],
    kind: Kind,
    row: Row,
) -> Result<Row, AllocError>
    requires { All (Takes kind) functions.now }
    ensures { IfOk result (λ stored. AreLifted functions.now kind row stored) }
{
    let mut left = row.into_values().into_iter();
    let mut values = Vec::with_capacity(alloc, functions.len())?;
    for function in functions {
        values.push(lifted(alloc, function, kind, next_value(&mut left))?)?;
    }
    Ok(Row::new(values))
}

/// The stored value of a row's value.
fn lifted(
    alloc: Global,
    function: &Option<ColumnFunction>,
    kind: Kind,
    value: Value,
) -> Result<Value, AllocError>
    requires { Takes kind function.now }
    ensures { IfOk result (IsLifted kind function.now value) }
{
    match function {
        Some(function) => function.lift(alloc, kind.retracts(), value),
        None => Ok(value),
    }
}

/// The stored row of two.
fn combined_row(
    alloc: Global,
    functions: &[Option<ColumnFunction>],
    older: Row,
    newer: Row,
) -> Result<Row, AllocError>
    ensures { IfOk result (λ stored. AreCombined functions.now older newer stored) }
{
    let mut older_left = older.into_values().into_iter();
    let mut newer_left = newer.into_values().into_iter();
    let mut values = Vec::with_capacity(alloc, functions.len())?;
    for function in functions {
        let before = next_value(&mut older_left);
        let after = next_value(&mut newer_left);
        values.push(combined(alloc, function, before, after)?)?;
    }
    Ok(Row::new(values))
}

/// The stored value of two.
fn combined(
    alloc: Global,
    function: &Option<ColumnFunction>,
    older: Value,
    newer: Value,
) -> Result<Value, AllocError>
    ensures { IfOk result (IsCombined function.now older newer) }
{
    match function {
        Some(function) => function.combine(alloc, older, newer),
        None => {
            drop(older);
            Ok(newer)
        }
    }
}
