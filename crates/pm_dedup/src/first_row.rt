//! The engine that keeps each key's first row.

ghost use Rattle.std.specs.Prelude.{◌≡◌, true, IfOk};
ghost use Rattle.pm_options.specs.declared.kinds.EngineKind.TheVariants as engines;
ghost use Rattle.pm_schema.specs.Rules.{differ, names_of};
ghost use Rattle.pm_engine.specs.OfSchema.{meaning_of};

use pm_engine::{MergeEngine, Needed, Stored, Verdict};
use pm_schema::TableSchema;
use pm_values::{Kind, Row};
use std::alloc::{AllocError, Global};

/// Keeps the first row of each key of its schema.
#[derive(Drop)]
pub struct FirstRow {
    pub schema: TableSchema,
    ghost keeps_first: { schema.options.engine ≡ engines.FirstRow },
    ghost distinct: { differ (names_of schema.columns) ≡ true },
}

impl FirstRow {
    /// The engine of a schema that names it, and whose columns have different names.
    pub fn of_schema(alloc: Global, schema: &TableSchema) -> Result<FirstRow, AllocError>
        requires engine { schema.now.options.engine ≡ engines.FirstRow }
        requires distinct { differ (names_of schema.now.columns) ≡ true }
        ensures schema { IfOk result (λ engine. engine.schema ≡ schema.now) }
        ensures meaning { IfOk result (λ engine.
            ⟦<FirstRow as MergeEngine>⟧.meaning engine ≡ meaning_of schema.now) }
    {
        Ok(FirstRow {
            schema: schema.copy(alloc)?,
        })
    }
}

impl MergeEngine for FirstRow {
    ghost meaning = { λ engine. meaning_of engine.schema };

    fn accepts(&self, kind: Kind) -> Verdict {
        if !kind.retracts() {
            Verdict::Take
        } else if self.schema.options.ignore_delete {
            Verdict::Ignore
        } else {
            Verdict::RefuseAll
        }
    }

    fn lift(&self, _alloc: Global, kind: Kind, row: Row) -> Result<Stored, AllocError> {
        Ok(Stored { kind, row })
    }

    fn combine(&self, _alloc: Global, older: Stored, _newer: Stored) -> Result<Stored, AllocError> {
        Ok(older)
    }

    fn needed(&self) -> Needed {
        Needed::Older
    }

    fn stores_rows(&self) -> bool {
        true
    }

    fn shows(&self, _stored: &Stored) -> bool {
        true
    }

    fn droppable(&self, _stored: &Stored) -> bool {
        false
    }

    fn droppable_law() {}
}
