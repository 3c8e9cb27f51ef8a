//! The engine that keeps each key's last row.

ghost use Rattle.std.specs.Prelude.{◌≡◌, IfOk};
ghost use Rattle.pm_options.specs.declared.kinds.EngineKind.TheVariants as engines;
ghost use Rattle.pm_engine.specs.OfSchema.{meaning_of};

use pm_engine::{MergeEngine, Needed, Stored, Verdict};
use pm_schema::TableSchema;
use pm_values::{Kind, Row};
use std::alloc::{AllocError, Global};

/// Keeps the last row of each key of its schema.
#[derive(Drop)]
pub struct Deduplicate {
    pub schema: TableSchema,
    ghost deduplicates: { schema.options.engine ≡ engines.Deduplicate },
}

impl Deduplicate {
    /// The engine of a schema that names it.
    pub fn of_schema(alloc: Global, schema: &TableSchema) -> Result<Deduplicate, AllocError>
        requires { schema.now.options.engine ≡ engines.Deduplicate }
        ensures schema { IfOk result (λ engine. engine.schema ≡ schema.now) }
        ensures meaning { IfOk result (λ engine.
            ⟦<Deduplicate as MergeEngine>⟧.meaning engine ≡ meaning_of schema.now) }
    {
        Ok(Deduplicate {
            schema: schema.copy(alloc)?,
        })
    }
}

impl MergeEngine for Deduplicate {
    ghost meaning = { λ engine. meaning_of engine.schema };

    fn accepts(&self, kind: Kind) -> Verdict {
        if kind.retracts() && self.schema.options.ignore_delete {
            Verdict::Ignore
        } else {
            Verdict::Take
        }
    }

    fn lift(&self, _alloc: Global, kind: Kind, row: Row) -> Result<Stored, AllocError> {
        Ok(Stored { kind, row })
    }

    fn combine(&self, _alloc: Global, _older: Stored, newer: Stored) -> Result<Stored, AllocError> {
        Ok(newer)
    }

    fn needed(&self) -> Needed {
        Needed::Newer
    }

    fn stores_rows(&self) -> bool {
        true
    }

    fn shows(&self, stored: &Stored) -> bool {
        !stored.kind.retracts()
    }

    fn droppable(&self, stored: &Stored) -> bool {
        stored.kind.retracts()
    }

    fn droppable_law() {}
}
