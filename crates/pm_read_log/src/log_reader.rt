//! The reader of a changelog.

ghost use Rattle.std.specs.Prelude.{◌≡◌, ◌↔◌, ◌≤◌, IfOk, IsTrue};
ghost use Rattle.pm_schema.specs.Again.{IsDeclared};
ghost use Rattle.pm_read_log.specs.Log.{log_asked_of};
ghost use Rattle.pm_read_table.specs.View.{HaveGroups};
ghost use Rattle.pm_read_log.specs.LogReader.{IsReady, Opens};
ghost use Rattle.pm_read_log.specs.declared.log_phase.LogPhase.TheVariants as phases;

use crate::log::{Log, LogAsked};
use crate::log_after::open;
use crate::log_phase::LogPhase;
use pm_machine::{LawfulPhase, Running};
use pm_manifest::{Entry, ManifestMeta};
use pm_record::one_reading_law;
use pm_schema::TableSchema;
use pm_snapshot::Snapshot;
use std::alloc::{AllocError, Global};

/// Reads the changelog of a table at a snapshot, a call of the store a step. It is a part of other machines, which make
/// its calls.
pub type LogReader = Running<LogPhase>;

impl LawfulPhase for LogPhase {
    fn laws() {
        one_reading_law::<ManifestMeta>();
        one_reading_law::<Entry>();
    }
}

/// A reader of the changelog of the snapshot with this id, from 1, of the table with this schema, which was read.
pub fn log_at(schema: TableSchema, id: u64) -> LogReader
    requires declared { IsDeclared schema }
    requires after_origin { 1 ≤ id }
    ensures { result ≡ phases.Snapshot (log_asked_of schema id) }
{
    Running::new(LogPhase::Snapshot {
        asked: LogAsked::new(schema, id),
    })
}

/// A reader of the changelog of this snapshot, which was just read as that of the table with this schema: what is left
/// of the reader of its id once its first call is answered.
pub fn opened_log(
    alloc: Global,
    schema: TableSchema,
    snapshot: Snapshot,
) -> Result<LogReader, AllocError>
    requires declared { IsDeclared schema }
    requires after_origin { 1 ≤ snapshot.id }
    ensures { IfOk result (Opens (log_asked_of schema snapshot.id) snapshot snapshot.changelog_list) }
{
    let asked = LogAsked::new(schema, snapshot.id);
    let phase = open(alloc, asked, snapshot)?;
    Ok(Running::new(phase))
}

/// Whether the changelog is ready.
pub fn is_log_ready(reader: &LogReader) -> bool
    ensures { IsTrue result ↔ IsReady reader.now }
{
    matches!(reader.phase(), LogPhase::Ready { .. })
}

/// The changelog, once it is ready.
pub fn into_log(reader: LogReader) -> Log
    requires { IsReady reader }
    ensures log { reader ≡ phases.Ready result }
    ensures groups { HaveGroups result.schema result.changes.items }
{
    match reader.into_phase() {
        LogPhase::Ready { log } => log,
        _ => unreachable!(),
    }
}
