//! The engine that updates rows in part.

ghost use Rattle.std.specs.Prelude.{◌≡◌, map, slice_index_or, true, IfOk};
ghost use Rattle.std.specs.Ordering.{is_le};
ghost use Rattle.pm_options.specs.declared.kinds.EngineKind.TheVariants as engines;
ghost use Rattle.pm_values.specs.Order.{value_cmp};
ghost use Rattle.pm_engine.specs.OfSchema.{meaning_of};
ghost use Rattle.pm_model_history.specs.ColumnValue.{is_null};
ghost use Rattle.pm_model_history.specs.Merge.{value_at};
ghost use Rattle.pm_partial.specs.PartialUpdate.{AreCombined, AreLifted, CanUpdate, IsLifted, IsFrom};
ghost use Rattle.pm_partial.specs.PartialUpdate.{follows, left_of, side_of};
ghost use Rattle.pm_partial.specs.Update.{update_on};

use crate::update::{Side, Update, update_on};
use pm_aggregate::{Aggregator, LastNonNullValue, next_value};
use pm_columns::verdict_of;
use pm_engine::{MergeEngine, Needed, Stored, Verdict};
use pm_schema::TableSchema;
use pm_values::{ColType, Kind, Row, Value};
use std::alloc::{AllocError, Global};

/// Updates the columns of each key's row in part: a column has its latest value that isn't null, and the columns of a
/// sequence group change together.
#[derive(Drop)]
pub struct PartialUpdate {
    pub schema: TableSchema,
    updates: Vec<Update>,
    ghost in_part: { schema.options.engine ≡ engines.PartialUpdate },
    ghost can: { CanUpdate schema },
    ghost are: { updates.items ≡ map (update_on schema) schema.columns },
}

impl PartialUpdate {
    /// The engine of a schema that names it and can be updated in part.
    pub fn of_schema(alloc: Global, schema: &TableSchema) -> Result<PartialUpdate, AllocError>
        requires engine { schema.now.options.engine ≡ engines.PartialUpdate }
        requires can { CanUpdate schema.now }
        ensures schema { IfOk result (λ engine. engine.schema ≡ schema.now) }
        ensures meaning { IfOk result (λ engine.
            ⟦<PartialUpdate as MergeEngine>⟧.meaning engine ≡ meaning_of schema.now) }
    {
        let updates = updates_of(alloc, schema)?;
        match schema.copy(alloc) {
            Ok(schema) => Ok(PartialUpdate { schema, updates }),
            Err(e) => {
                drop(updates);
                Err(e)
            }
        }
    }
}

/// How a schema keeps its columns.
fn updates_of(alloc: Global, schema: &TableSchema) -> Result<Vec<Update>, AllocError>
    ensures { IfOk result (λ updates. updates.items ≡ map (update_on schema.now) schema.now.columns) }
{
    let columns = schema.columns.as_slice();
    let mut updates = Vec::with_capacity(alloc, columns.len())?;
    for column in columns {
        updates.push(update_on(schema, column))?;
    }
    Ok(updates)
}

impl MergeEngine for PartialUpdate {
    ghost meaning = { λ engine. meaning_of engine.schema };

    fn accepts(&self, kind: Kind) -> Verdict {
        verdict_of(&self.schema, kind)
    }

    fn lift(&self, alloc: Global, kind: Kind, row: Row) -> Result<Stored, AllocError> {
        Ok(Stored {
            kind: Kind::Insert,
            row: lifted_row(alloc, self.updates.as_slice(), kind, row)?,
        })
    }

    fn combine(&self, alloc: Global, older: Stored, newer: Stored) -> Result<Stored, AllocError> {
        Ok(Stored {
            kind: Kind::Insert,
            row: combined_row(alloc, self.updates.as_slice(), older.row, newer.row)?,
        })
    }

    fn needed(&self) -> Needed {
        Needed::Both
    }

    fn stores_rows(&self) -> bool {
        false
    }

    fn shows(&self, _stored: &Stored) -> bool {
        true
    }

    fn droppable(&self, _stored: &Stored) -> bool {
        false
    }

    fn droppable_law() {}
}

/// The stored row of one row.
fn lifted_row(alloc: Global, updates: &[Update], kind: Kind, row: Row) -> Result<Row, AllocError>
    ensures { IfOk result (λ stored. AreLifted updates.now (kind, row) stored) }
{
    let nulls = nulls_of(alloc, row.values())?;
    let mut left = row.into_values().into_iter();
    let mut values = Vec::with_capacity(alloc, updates.len())?;
    for (index, update) in updates.iter().enumerate() {
        let value = next_value(&mut left);
        values.push(lifted(alloc, *update, kind, &nulls, index, value)?)?;
    }
    Ok(Row::new(values))
}

/// Which of a row's values are null.
fn nulls_of(alloc: Global, values: &[Value]) -> Result<Vec<bool>, AllocError>
    ensures { IfOk result (λ nulls. nulls.items ≡ map is_null values.now) }
{
    let mut nulls = Vec::with_capacity(alloc, values.len())?;
    for value in values {
        nulls.push(matches!(value, Value::Null))?;
    }
    Ok(nulls)
}

/// The stored value of a row's value at an index.
fn lifted(
    alloc: Global,
    update: Update,
    kind: Kind,
    nulls: &[bool],
    index: usize,
    value: Value,
) -> Result<Value, AllocError>
    ensures { IfOk result (IsLifted update kind nulls.now index value) }
{
    match update {
        Update::Key => Ok(value),
        Update::Latest(column) => latest(column).lift(alloc, kind.retracts(), value),
        Update::InGroup(lead) => Ok(left_of(lead, index, kind, nulls, value)),
    }
}

/// What is left of a row's value at an index in a column of a group.
fn left_of(lead: usize, index: usize, kind: Kind, nulls: &[bool], value: Value) -> Value
    ensures { result ≡ left_of lead index kind nulls.now value }
{
    if is_null_at(nulls, lead) {
        drop(value);
        return Value::Null;
    }
    if kind.retracts() && index != lead {
        drop(value);
        return Value::Null;
    }
    value
}

/// Whether there is null at an index, or nothing.
fn is_null_at(nulls: &[bool], index: usize) -> bool
    ensures { result ≡ slice_index_or nulls.now index true }
{
    match nulls.get(index) {
        Some(is_null) => *is_null,
        None => true,
    }
}

/// The stored row of two. Which of them each column is taken from is known before their values are moved.
fn combined_row(
    alloc: Global,
    updates: &[Update],
    older: Row,
    newer: Row,
) -> Result<Row, AllocError>
    ensures { IfOk result (λ stored. AreCombined updates.now older newer stored) }
{
    let sides = sides_of(alloc, updates, &older, &newer)?;
    let mut older_left = older.into_values().into_iter();
    let mut newer_left = newer.into_values().into_iter();
    let mut values = Vec::with_capacity(alloc, sides.len())?;
    for side in &sides {
        let before = next_value(&mut older_left);
        let after = next_value(&mut newer_left);
        values.push(combined(alloc, *side, before, after)?)?;
    }
    Ok(Row::new(values))
}

/// Which of two rows each column is taken from.
fn sides_of(
    alloc: Global,
    updates: &[Update],
    older: &Row,
    newer: &Row,
) -> Result<Vec<Side>, AllocError>
    ensures { IfOk result (λ sides. sides.items ≡ map (side_of older.now newer.now) updates.now) }
{
    let mut sides = Vec::with_capacity(alloc, updates.len())?;
    for update in updates {
        sides.push(side_of(*update, older, newer))?;
    }
    Ok(sides)
}

/// Which of two rows a column is taken from.
fn side_of(update: Update, older: &Row, newer: &Row) -> Side
    ensures { result ≡ side_of older.now newer.now update }
{
    match update {
        Update::Key => Side::Newer,
        Update::Latest(column) => Side::Latest(column),
        Update::InGroup(lead) => {
            if follows(older, newer, lead) {
                Side::Newer
            } else {
                Side::Older
            }
        }
    }
}

/// The stored value of two.
fn combined(alloc: Global, side: Side, older: Value, newer: Value) -> Result<Value, AllocError>
    ensures { IfOk result (IsFrom side older newer) }
{
    match side {
        Side::Older => {
            drop(newer);
            Ok(older)
        }
        Side::Newer => {
            drop(older);
            Ok(newer)
        }
        Side::Latest(column) => latest(column).combine(alloc, older, newer),
    }
}

/// The function of a column outside the groups. Rows that retract don't count for it.
fn latest(kind: ColType) -> LastNonNullValue
    ensures kind { result.kind ≡ kind }
    ensures skips { result.skips ≡ true }
{
    LastNonNullValue { kind, skips: true }
}

/// Whether the newer row's leading value takes the place of the older's: it isn't null, and it isn't less.
fn follows(older: &Row, newer: &Row, lead: usize) -> bool
    ensures { result ≡ follows (value_at older.now lead) (value_at newer.now lead) }
{
    match newer.values().get(lead) {
        Some(new) => !matches!(new, Value::Null) && is_at_most(older, lead, new),
        None => false,
    }
}

/// Whether a row's value at an index is at most the other, as null is.
fn is_at_most(row: &Row, index: usize, other: &Value) -> bool
    ensures { result ≡ is_le (value_cmp (value_at row.now index) other.now) }
{
    match row.values().get(index) {
        Some(value) => value.cmp(other).is_le(),
        None => true,
    }
}
