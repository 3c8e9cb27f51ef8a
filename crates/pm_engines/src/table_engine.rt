//! The engine of a table.

ghost use Rattle.std.specs.Prelude.{◌≡◌, IfOk, IfErr};
ghost use Rattle.pm_values.specs.declared.refusal.Refusal.TheVariants.{Memory};
ghost use Rattle.pm_engine.specs.OfSchema.{meaning_of};
ghost use Rattle.pm_engines.specs.TableEngine.{HasEngine, schema_of};
ghost use Rattle.pm_engines.specs.Verdict.{verdict_on};

use crate::verdict::{Verdict, named};
use pm_aggregate::Aggregation;
use pm_dedup::{Deduplicate, FirstRow};
use pm_engine::{MergeEngine, Needed, Stored, Verdict as VerdictByIndex};
use pm_partial::PartialUpdate;
use pm_schema::{EngineKind, TableSchema};
use pm_values::{Kind, Refusal, Row};
use std::alloc::{AllocError, Global};

/// The engine of a table: any of them.
pub enum TableEngine {
    Deduplicate(Deduplicate),
    PartialUpdate(PartialUpdate),
    Aggregation(Aggregation),
    FirstRow(FirstRow),
}

impl Drop for TableEngine {
    fn drop(self) {
        match self {
            TableEngine::Deduplicate(_a) => {}
            TableEngine::PartialUpdate(_a) => {}
            TableEngine::Aggregation(_a) => {}
            TableEngine::FirstRow(_a) => {}
        }
    }
}

impl TableEngine {
    /// The engine of the schema. Each schema that was read has one (`declared_law`).
    pub fn of_schema(alloc: Global, schema: &TableSchema) -> Result<TableEngine, Refusal>
        requires { HasEngine schema.now }
        ensures schema { IfOk result (λ engine. schema_of engine ≡ schema.now) }
        ensures meaning { IfOk result (λ engine.
            ⟦<TableEngine as MergeEngine>⟧.meaning engine ≡ meaning_of schema.now) }
        ensures memory { IfErr result (λ e. e ≡ Memory) }
    {
        match schema.options.engine {
            EngineKind::Deduplicate => Ok(TableEngine::Deduplicate(Deduplicate::of_schema(
                alloc, schema,
            )?)),
            EngineKind::PartialUpdate => Ok(TableEngine::PartialUpdate(PartialUpdate::of_schema(
                alloc, schema,
            )?)),
            EngineKind::Aggregation => Ok(TableEngine::Aggregation(Aggregation::of_schema(
                alloc, schema,
            )?)),
            EngineKind::FirstRow => Ok(TableEngine::FirstRow(FirstRow::of_schema(alloc, schema)?)),
        }
    }

    /// What becomes of a row of the kind, with the name of the column that refuses it.
    pub fn verdict(&self, alloc: Global, kind: Kind) -> Result<Verdict, AllocError>
        ensures { IfOk result (λ verdict. verdict ≡ verdict_on (schema_of self.now) kind) }
    {
        named(alloc, self.schema(), self.accepts(kind))
    }

    /// The schema whose engine it is.
    pub fn schema(&self) -> &TableSchema
        ensures { result.now ≡ schema_of self.now }
    {
        match self {
            TableEngine::Deduplicate(engine) => &engine.schema,
            TableEngine::PartialUpdate(engine) => &engine.schema,
            TableEngine::Aggregation(engine) => &engine.schema,
            TableEngine::FirstRow(engine) => &engine.schema,
        }
    }
}

impl MergeEngine for TableEngine {
    ghost meaning = { λ engine. meaning_of (schema_of engine) };

    fn accepts(&self, kind: Kind) -> VerdictByIndex {
        match self {
            TableEngine::Deduplicate(engine) => engine.accepts(kind),
            TableEngine::PartialUpdate(engine) => engine.accepts(kind),
            TableEngine::Aggregation(engine) => engine.accepts(kind),
            TableEngine::FirstRow(engine) => engine.accepts(kind),
        }
    }

    fn lift(&self, alloc: Global, kind: Kind, row: Row) -> Result<Stored, AllocError> {
        match self {
            TableEngine::Deduplicate(engine) => engine.lift(alloc, kind, row),
            TableEngine::PartialUpdate(engine) => engine.lift(alloc, kind, row),
            TableEngine::Aggregation(engine) => engine.lift(alloc, kind, row),
            TableEngine::FirstRow(engine) => engine.lift(alloc, kind, row),
        }
    }

    fn combine(&self, alloc: Global, older: Stored, newer: Stored) -> Result<Stored, AllocError> {
        match self {
            TableEngine::Deduplicate(engine) => engine.combine(alloc, older, newer),
            TableEngine::PartialUpdate(engine) => engine.combine(alloc, older, newer),
            TableEngine::Aggregation(engine) => engine.combine(alloc, older, newer),
            TableEngine::FirstRow(engine) => engine.combine(alloc, older, newer),
        }
    }

    fn needed(&self) -> Needed {
        match self {
            TableEngine::Deduplicate(engine) => engine.needed(),
            TableEngine::PartialUpdate(engine) => engine.needed(),
            TableEngine::Aggregation(engine) => engine.needed(),
            TableEngine::FirstRow(engine) => engine.needed(),
        }
    }

    fn stores_rows(&self) -> bool {
        match self {
            TableEngine::Deduplicate(engine) => engine.stores_rows(),
            TableEngine::PartialUpdate(engine) => engine.stores_rows(),
            TableEngine::Aggregation(engine) => engine.stores_rows(),
            TableEngine::FirstRow(engine) => engine.stores_rows(),
        }
    }

    fn shows(&self, stored: &Stored) -> bool {
        match self {
            TableEngine::Deduplicate(engine) => engine.shows(stored),
            TableEngine::PartialUpdate(engine) => engine.shows(stored),
            TableEngine::Aggregation(engine) => engine.shows(stored),
            TableEngine::FirstRow(engine) => engine.shows(stored),
        }
    }

    fn droppable(&self, stored: &Stored) -> bool {
        match self {
            TableEngine::Deduplicate(engine) => engine.droppable(stored),
            TableEngine::PartialUpdate(engine) => engine.droppable(stored),
            TableEngine::Aggregation(engine) => engine.droppable(stored),
            TableEngine::FirstRow(engine) => engine.droppable(stored),
        }
    }

    fn droppable_law() {
        Deduplicate::droppable_law();
        PartialUpdate::droppable_law();
        Aggregation::droppable_law();
        FirstRow::droppable_law();
    }
}
