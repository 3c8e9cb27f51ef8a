//! The lister of a table's snapshots.

ghost use Rattle.std.specs.Prelude.{◌≡◌, ◌↔◌, IfOk, IsTrue};
ghost use Rattle.std.specs.Option.{option_copied};
ghost use Rattle.pm_snapshots.specs.Lines.{snapshots_text};
ghost use Rattle.pm_snapshots.specs.Lister.{lines_of, schema_at, IsDone};
ghost use Rattle.pm_snapshots.specs.declared.phase.Phase.TheVariants as phases;
ghost use Rattle.pm_read_schema.specs.declared.phase.Phase.TheVariants as readers;

use crate::line::print_lines;
use crate::phase::Phase;
use pm_machine::{LawfulPhase, Running};
use pm_read_schema::schema_reader;
use pm_schema::TableSchema;
use std::alloc::{AllocError, Global};

/// Lists the snapshots of a table, a call of the store a step.
pub type Lister = Running<Phase>;

impl LawfulPhase for Phase {
    fn laws() {}
}

/// A lister that has made no call yet.
pub fn first_list() -> Lister
    ensures { result ≡ phases.Schema readers.Schemas }
{
    Running::new(Phase::Schema {
        reader: schema_reader(),
    })
}

/// A lister of the table with this schema, which was just read.
pub fn list_of(schema: TableSchema) -> Lister
    ensures { result ≡ phases.List schema }
{
    Running::new(Phase::List { schema })
}

/// The table's schema, once it was read.
pub fn listed_schema(lister: &Lister) -> Option<&TableSchema>
    ensures { option_copied result ≡ schema_at lister.now }
{
    match lister.phase() {
        Phase::List { schema } => Some(schema),
        Phase::Read { reading } => Some(reading.schema()),
        _ => None,
    }
}

/// Whether all snapshots were read.
pub fn is_list_done(lister: &Lister) -> bool
    ensures { IsTrue result ↔ IsDone lister.now }
{
    match lister.phase() {
        Phase::Read { reading } => reading.next().is_none(),
        _ => false,
    }
}

/// The text of the snapshots, once all were read.
pub fn list_text(alloc: Global, lister: &Lister) -> Result<Vec<u8>, AllocError>
    requires { IsDone lister.now }
    ensures { IfOk result (λ text. text.items ≡ snapshots_text (lines_of lister.now)) }
{
    match lister.phase() {
        Phase::Read { reading } => print_lines(alloc, reading.lines()),
        _ => unreachable!(),
    }
}
