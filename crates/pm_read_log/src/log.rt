//! The changelog of a snapshot, and how far its reading has come.

ghost use Rattle.std.specs.Prelude.{◌≡◌, ℕ, ◌≤◌};
ghost use Rattle.pm_schema.specs.Again.{IsDeclared};
ghost use Rattle.pm_read_log.specs.Log.{log_asked_of};

use pm_manifest::{Entry, ManifestMeta};
use pm_schema::TableSchema;
use pm_snapshot::Snapshot;
use std::collections::VecDeque;
use std::marker::Model;

/// What is asked of a reader of a changelog: a table, by its schema, and the id of one of its snapshots.
#[derive(Drop)]
pub struct LogAsked {
    pub(crate) schema: TableSchema,
    pub(crate) id: u64,
}

impl Model for LogAsked {
    ghost use Rattle.std.specs.Prelude.{◌≤◌};
    ghost use Rattle.pm_schema.specs.Again.{IsDeclared};
    ghost use Rattle.pm_read_log.specs.Log.{log_asked_of, LogAskedView};

    ghost Value = { LogAskedView };

    ghost view = { λ a. log_asked_of a.schema a.id };

    ghost invariant = { λ a. IsDeclared a.schema × (1 ≤ a.id) };
}

impl LogAsked {
    /// The snapshot with this id of the table with a schema that a file declares.
    pub(crate) fn new(schema: TableSchema, id: u64) -> LogAsked
        requires declared { IsDeclared schema }
        requires after_origin { 1 ≤ id }
        ensures { result ≡ log_asked_of schema id }
    {
        LogAsked { schema, id }
    }

    /// The table's schema.
    pub(crate) fn schema(&self) -> &TableSchema
        ensures schema { result.now ≡ self.now.schema }
        ensures declared { IsDeclared result.now }
    {
        &self.schema
    }

    /// The snapshot's id.
    pub(crate) fn id(&self) -> u64
        ensures { result ≡ self.now.id }
    {
        self.id
    }

    /// The table's schema.
    pub(crate) fn into_schema(self) -> TableSchema
        ensures { result ≡ self.schema }
    {
        let LogAsked { schema, .. } = self;
        schema
    }
}

/// What was asked, the snapshot, the manifests of its changelog that were read, the one to be read next, those after
/// it, and the entries of the first.
#[derive(Drop)]
pub struct LogReading {
    pub(crate) asked: LogAsked,
    pub(crate) snapshot: Snapshot,
    pub(crate) done: Vec<ManifestMeta>,
    pub(crate) next: ManifestMeta,
    pub(crate) rest: VecDeque<ManifestMeta>,
    pub(crate) changes: Vec<Entry>,
}

impl Model for LogReading {
    ghost use Rattle.pm_read_log.specs.Log.{log_reading_of, LogReadingView};
    ghost use Rattle.pm_read_table.specs.View.{HaveGroups};

    ghost Value = { LogReadingView };

    ghost view = { λ r. log_reading_of r.asked r.snapshot r.done.items r.next r.rest.items r.changes.items };

    ghost invariant = { λ r. HaveGroups r.asked.schema r.changes.items };
}

/// The changelog of a snapshot: the entries of its files, in their order.
#[derive(Drop)]
pub struct Log {
    /// The table's schema.
    pub schema: TableSchema,
    /// The snapshot.
    pub snapshot: Snapshot,
    /// The manifests of its changelog list.
    pub manifests: Vec<ManifestMeta>,
    /// The entries, each of which adds a file at level 0.
    pub changes: Vec<Entry>,
}
