//! The reader of a whole view.

ghost use Rattle.std.specs.Prelude.{◌≡◌, ◌↔◌, ◌≤◌, [], IfOk, IsTrue};
ghost use Rattle.pm_schema.specs.Again.{IsDeclared};
ghost use Rattle.pm_store.specs.Files.{Files};
ghost use Rattle.pm_model_folder.specs.Ledger.{Past};
ghost use Rattle.pm_read_table.specs.Asked.{asked_of, sought_of};
ghost use Rattle.pm_read_table.specs.declared.asked.Wanted.TheVariants as wants;
ghost use Rattle.pm_read_table.specs.declared.phase.Phase.TheVariants as readers;
ghost use Rattle.pm_read_whole.specs.Meaning.{AreNamed, Knows};
ghost use Rattle.pm_read_whole.specs.Whole.{paths_of, IsReady, IsWhole};
ghost use Rattle.pm_read_whole.specs.declared.phase.Phase.TheVariants as phases;

use crate::laws::paths_law;
use crate::phase::Phase;
use pm_base::Txt;
use pm_machine::{LawfulPhase, Running};
use pm_manifest::{ManifestMeta, joined_law};
use pm_read_log::{Log, log_causes_law, named_paths};
use pm_read_table::{View, whole_view};
use pm_record::one_reading_law;
use pm_schema::TableSchema;
use std::alloc::{AllocError, Global};

/// Reads all that a snapshot of a table names but its rows, a call of the store a step.
pub type WholeReader = Running<Phase>;

/// A reader of the snapshot with this id, from 1, of the table with this schema, which was just read. It lists nothing:
/// its first call reads the snapshot.
pub fn whole_at(alloc: Global, schema: TableSchema, id: u64) -> WholeReader
    requires declared { IsDeclared schema }
    requires after_origin { 1 ≤ id }
    ensures { result ≡ phases.View (readers.Snapshot (sought_of (asked_of schema (wants.Whole id)) []) id) }
{
    Running::new(Phase::View {
        reader: whole_view(alloc, schema, id),
    })
}

/// Whether the view and the changelog are ready.
pub fn is_whole_ready(reader: &WholeReader) -> bool
    ensures { IsTrue result ↔ IsReady reader.now }
{
    matches!(reader.phase(), Phase::Ready { .. })
}

/// The view and the changelog, once they are ready.
pub fn into_parts(reader: WholeReader) -> (View, Log)
    requires { IsReady reader }
    ensures parts { reader ≡ phases.Ready result.0 result.1 }
    ensures whole { IsWhole (phases.Ready result.0 result.1) }
{
    match reader.into_phase() {
        Phase::Ready { view, log } => (view, log),
        _ => unreachable!(),
    }
}

/// The paths that the snapshot names, once the view and the changelog are ready. A path may stand twice: that of a file
/// that is live at two levels.
pub fn paths_in(alloc: Global, reader: &WholeReader) -> Result<Vec<Txt>, AllocError>
    requires { IsReady reader.now }
    ensures paths { IfOk result (λ paths. paths.items ≡ paths_of reader.now) }
    ensures named { (f : Files) (p : Past) → Knows reader.now f p → AreNamed p reader.now (paths_of reader.now) }
{
    paths_law();
    match reader.phase() {
        Phase::Ready { view, log } => named_paths(alloc, view, log),
        _ => unreachable!(),
    }
}

impl LawfulPhase for Phase {
    fn laws() {
        joined_law();
        one_reading_law::<ManifestMeta>();
        pm_read_table::causes_law();
        log_causes_law();
    }
}
