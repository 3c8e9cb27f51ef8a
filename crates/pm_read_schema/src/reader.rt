//! The reader of a table's schema.

ghost use Rattle.std.specs.Prelude.{◌≡◌, ◌↔◌, IsTrue};
ghost use Rattle.pm_schema.specs.Again.{IsDeclared};
ghost use Rattle.pm_read_schema.specs.Reader.{IsReady};
ghost use Rattle.pm_read_schema.specs.declared.phase.Phase.TheVariants as phases;

use crate::phase::Phase;
use pm_machine::{LawfulPhase, Running};
use pm_schema::TableSchema;

/// Reads the schema of a table, a call of the store a step.
pub type SchemaReader = Running<Phase>;

impl LawfulPhase for Phase {
    fn laws() {}
}

/// A reader that has made no call yet.
pub fn schema_reader() -> SchemaReader
    ensures { result ≡ phases.Schemas }
{
    Running::new(Phase::Schemas)
}

/// Whether the schema is ready.
pub fn is_schema_ready(reader: &SchemaReader) -> bool
    ensures { IsTrue result ↔ IsReady reader.now }
{
    matches!(reader.phase(), Phase::Ready { .. })
}

/// The schema, once it is ready.
pub fn into_schema(reader: SchemaReader) -> TableSchema
    requires { IsReady reader }
    ensures schema { reader ≡ phases.Ready result }
    ensures declared { IsDeclared result }
{
    match reader.into_phase() {
        Phase::Ready { schema } => schema,
        _ => unreachable!(),
    }
}
