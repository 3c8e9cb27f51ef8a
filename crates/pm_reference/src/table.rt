//! The merged table: key by key, and column by column.

ghost use Rattle.std.specs.Prelude.{◌≡◌, List, map, IfOk, OnOk};
ghost use Rattle.std.specs.FinMap.{values};
ghost use Rattle.std.specs.Option.{option_map};
ghost use Rattle.pm_values.specs.Order.{Values};
ghost use Rattle.pm_options.specs.declared.kinds.EngineKind.TheVariants.{Aggregation};
ghost use Rattle.pm_model_history.specs.ColumnValue.{value_by, value_in, column_value};
ghost use Rattle.pm_model_history.specs.Merge.{key_of, rows_of};
ghost use Rattle.pm_model_history.specs.Merged.{primary_of, shows, values_of, merged_row, merged};
ghost use Rattle.pm_reference.specs.Table.{placed};

use crate::aggregates::aggregate_by;
use crate::groups::updated_value;
use crate::values::{adding, first_value, last_of, last_value, values_at};
use pm_columns::{function_of, group_of, is_key, skips_retractions};
use pm_model_history::{key_of, primary_of};
use pm_schema::{EngineKind, TableSchema};
use pm_values::{Column, Key, Kind, Row, Value};
use std::alloc::{AllocError, Global};
use std::collections::BTreeMap;

/// The rows of the merged table of these rows, by rising key.
pub fn merged_rows(
    alloc: Global,
    schema: &TableSchema,
    rows: &[(Kind, Row)],
) -> Result<Vec<Row>, AllocError>
    ensures { IfOk result (λ shown. shown.items ≡ values (merged schema.now rows.now)) }
{
    let primary = primary_of(alloc, schema)?;
    let mut table = BTreeMap::new(alloc);
    let mut index = rows.len();
    while index > 0 {
        index -= 1;
        put(
            alloc,
            schema,
            primary.as_slice(),
            rows,
            &rows[index].1,
            &mut table,
        )?;
    }
    rows_in(alloc, table)
}

/// Puts the row of the given row's key into the table, where the key shows.
fn put(
    alloc: Global,
    schema: &TableSchema,
    primary: &[usize],
    rows: &[(Kind, Row)],
    row: &Row,
    table: &mut BTreeMap<Key, Row>,
) -> Result<(), AllocError>
    ensures { OnOk result (primary.now ≡ primary_of schema.now
        → table.new.entries ≡ placed (option_map (λ (shown : Values). (key_of primary.now row.now, shown))
        (merged_row schema.now rows.now (key_of primary.now row.now))) table.old.entries) }
{
    let key = key_of(alloc, primary, row)?;
    let own = rows_of(alloc, primary, &key, rows)?;
    if shows(schema, own.as_slice()) {
        table.insert(key, values_of(alloc, schema, own.as_slice())?)?;
    }
    Ok(())
}

/// The rows of a table, by rising key.
fn rows_in(alloc: Global, table: BTreeMap<Key, Row>) -> Result<Vec<Row>, AllocError>
    ensures { IfOk result (λ rows. rows.items ≡ map (λ e. e.1) table.entries) }
{
    let mut rows = Vec::with_capacity(alloc, table.len())?;
    for (_, row) in table {
        rows.push(row)?;
    }
    Ok(rows)
}

/// Equal rows to those that have the key, in their order.
fn rows_of(
    alloc: Global,
    primary: &[usize],
    key: &Key,
    rows: &[(Kind, Row)],
) -> Result<Vec<(Kind, Row)>, AllocError>
    ensures { IfOk result (λ own. own.items ≡ rows_of primary.now key.now rows.now) }
{
    let mut own = Vec::new(alloc);
    for (kind, row) in rows {
        if *key == key_of(alloc, primary, row)? {
            own.push((*kind, row.copy(alloc)?))?;
        }
    }
    Ok(own)
}

/// Whether a key with these rows shows.
fn shows(schema: &TableSchema, rows: &[(Kind, Row)]) -> bool
    ensures { result ≡ shows schema.now rows.now }
{
    match (schema.options.engine, last_of(rows)) {
        (EngineKind::Deduplicate, Some((kind, _))) => !kind.retracts(),
        (_, last) => last.is_some(),
    }
}

/// The row of the columns' values over the rows of one key.
fn values_of(alloc: Global, schema: &TableSchema, rows: &[(Kind, Row)]) -> Result<Row, AllocError>
    ensures { IfOk result (λ row. row ≡ values_of schema.now rows.now) }
{
    let count = schema.columns.as_slice().len();
    let mut values = Vec::with_capacity(alloc, count)?;
    for index in 0..count {
        values.push(column_value(alloc, schema, index, rows)?)?;
    }
    Ok(Row::new(values))
}

/// The value of the column at the index over the rows of one key, null where there is no such column.
#[tactic(auto, unfolding(pm_model_history::specs::ColumnValue::column_value))]
fn column_value(
    alloc: Global,
    schema: &TableSchema,
    index: usize,
    rows: &[(Kind, Row)],
) -> Result<Value, AllocError>
    ensures { IfOk result (λ value. value ≡ column_value schema.now index rows.now) }
{
    match schema.columns.as_slice().get(index) {
        Some(column) => value_in(alloc, schema, index, rows, column),
        None => Ok(Value::Null),
    }
}

/// The value of a column that stands at the index.
fn value_in(
    alloc: Global,
    schema: &TableSchema,
    index: usize,
    rows: &[(Kind, Row)],
    column: &Column,
) -> Result<Value, AllocError>
    ensures { IfOk result (λ value. value ≡ value_in schema.now index rows.now column.now) }
{
    if is_key(schema, column) {
        let values = values_at(alloc, index, rows)?;
        return last_value(alloc, values.as_slice());
    }
    value_by(alloc, schema, column, index, rows)
}

/// The value of a column outside the key.
fn value_by(
    alloc: Global,
    schema: &TableSchema,
    column: &Column,
    index: usize,
    rows: &[(Kind, Row)],
) -> Result<Value, AllocError>
    ensures { IfOk result (λ value.
        value ≡ value_by schema.now.options.engine schema.now column.now index rows.now) }
{
    match schema.options.engine {
        EngineKind::Deduplicate => {
            let values = values_at(alloc, index, rows)?;
            last_value(alloc, values.as_slice())
        }
        EngineKind::FirstRow => {
            let values = values_at(alloc, index, rows)?;
            first_value(alloc, values.as_slice())
        }
        EngineKind::PartialUpdate => {
            updated_value(alloc, schema, index, group_of(schema, column), rows)
        }
        EngineKind::Aggregation => aggregated_value(alloc, schema, column, index, rows),
    }
}

/// What the column's function makes of the rows that count.
fn aggregated_value(
    alloc: Global,
    schema: &TableSchema,
    column: &Column,
    index: usize,
    rows: &[(Kind, Row)],
) -> Result<Value, AllocError>
    ensures { IfOk result (λ value. value
        ≡ value_by Aggregation schema.now column.now index rows.now) }
{
    let function = function_of(schema, column);
    if skips_retractions(schema, column) {
        let some = adding(alloc, rows)?;
        return aggregate_by(alloc, function, schema, column, index, some.as_slice());
    }
    aggregate_by(alloc, function, schema, column, index, rows)
}
