//! What an engine takes.

ghost use Rattle.std.specs.Prelude.{◌≡◌};
ghost use Rattle.std.specs.List.{position};
ghost use Rattle.pm_model_history.specs.Taken.{takes_retractions, refuses_retractions, verdict};

use crate::columns::{function_of, is_key, skips_retractions};
use pm_model_history::Verdict;
use pm_schema::{EngineKind, Function, TableSchema};
use pm_values::{Column, Kind};

/// What the engine of the schema makes of a row of the kind.
pub fn verdict_of(schema: &TableSchema, kind: Kind) -> Verdict
    ensures { result ≡ verdict schema.now kind }
{
    if !kind.retracts() {
        return Verdict::Take;
    }
    if schema.options.ignore_delete {
        return Verdict::Ignore;
    }
    match schema.options.engine {
        EngineKind::Deduplicate => Verdict::Take,
        EngineKind::FirstRow => Verdict::RefuseAll,
        EngineKind::PartialUpdate => match schema.options.groups.as_slice() {
            [] => Verdict::RefuseAll,
            _ => Verdict::Take,
        },
        EngineKind::Aggregation => match refusing_column(schema) {
            Some(index) => Verdict::Refuse(index),
            None => Verdict::Take,
        },
    }
}

/// The index of the first column that refuses a row that retracts.
fn refusing_column(schema: &TableSchema) -> Option<usize>
    ensures { result ≡ position (refuses_retractions schema.now) schema.now.columns }
{
    schema
        .columns
        .as_slice()
        .iter()
        .position(|column| refuses_retractions(schema, column))
}

/// Whether a row that retracts is refused because of the column.
fn refuses_retractions(schema: &TableSchema, column: &Column) -> bool
    ensures { result ≡ refuses_retractions schema.now column.now }
{
    !is_key(schema, column)
        && !skips_retractions(schema, column)
        && !takes_retractions(function_of(schema, column))
}

/// Whether the function takes a row that retracts.
fn takes_retractions(function: Function) -> bool
    ensures { result ≡ takes_retractions function }
{
    matches!(function, Function::Sum | Function::LastValue)
}
