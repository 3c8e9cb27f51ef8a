//! The reader of a view.

ghost use Rattle.std.specs.Prelude.{◌≡◌, ◌↔◌, ◌≤◌, [], IsTrue};
ghost use Rattle.pm_schema.specs.Again.{IsDeclared};
ghost use Rattle.pm_read_table.specs.Reader.{IsReady};
ghost use Rattle.pm_read_table.specs.Asked.{asked_of, sought_of};
ghost use Rattle.pm_read_table.specs.View.{HaveGroups};
ghost use Rattle.pm_read_table.specs.View.{HasFolders};
ghost use Rattle.pm_read_table.specs.declared.asked.Wanted.TheVariants as wants;
ghost use Rattle.pm_read_table.specs.declared.phase.Phase.TheVariants as phases;

use crate::asked::{Asked, Sought, Wanted};
use crate::phase::Phase;
use crate::view::View;
use pm_machine::{LawfulPhase, Running};
use pm_manifest::{Entry, ManifestMeta, joined_law};
use pm_model_contents::one_contents_law;
use pm_record::one_reading_law;
use pm_schema::TableSchema;
use std::alloc::Global;

/// Reads the table at a snapshot, a call of the store a step. It is a part of other machines, which make its calls.
pub type ViewReader = Running<Phase>;

impl LawfulPhase for Phase {
    fn laws() {
        joined_law();
        one_reading_law::<ManifestMeta>();
        one_reading_law::<Entry>();
        one_contents_law();
    }
}

/// A reader of the table with this schema, which was just read, at its latest snapshot.
pub fn newest_view(schema: TableSchema) -> ViewReader
    requires { IsDeclared schema }
    ensures { result ≡ phases.List (asked_of schema wants.Newest) }
{
    Running::new(Phase::List {
        asked: Asked::new(schema, Wanted::Newest),
    })
}

/// A reader of the table with this schema, which was just read, at the snapshot with this id.
pub fn view_at(schema: TableSchema, id: u64) -> ViewReader
    requires { IsDeclared schema }
    ensures { result ≡ phases.List (asked_of schema (wants.At id)) }
{
    Running::new(Phase::List {
        asked: Asked::new(schema, Wanted::At { id }),
    })
}

/// A reader of the table with this schema, which was just read, at its latest snapshot, that keeps the entries of the
/// live files.
pub fn newest_entries(schema: TableSchema) -> ViewReader
    requires { IsDeclared schema }
    ensures { result ≡ phases.List (asked_of schema wants.Entries) }
{
    Running::new(Phase::List {
        asked: Asked::new(schema, Wanted::Entries),
    })
}

/// A reader of the table with this schema, which was just read, at the snapshot with this id, from 1, that keeps the
/// entries of the live files. It lists nothing: its first call reads the snapshot.
pub fn whole_view(alloc: Global, schema: TableSchema, id: u64) -> ViewReader
    requires declared { IsDeclared schema }
    requires after_origin { 1 ≤ id }
    ensures { result ≡ phases.Snapshot (sought_of (asked_of schema (wants.Whole id)) []) id }
{
    Running::new(Phase::Snapshot {
        sought: Sought::new(Asked::new(schema, Wanted::Whole { id }), Vec::new(alloc)),
        id,
    })
}

/// Whether the view is ready.
pub fn is_view_ready(reader: &ViewReader) -> bool
    ensures { IsTrue result ↔ IsReady reader.now }
{
    matches!(reader.phase(), Phase::Ready { .. })
}

/// The view, once it is ready.
pub fn into_view(reader: ViewReader) -> View
    requires { IsReady reader }
    ensures view { reader ≡ phases.Ready result }
    ensures folders { HasFolders result }
    ensures groups { HaveGroups result.schema result.live.items }
    ensures declared { IsDeclared result.schema }
{
    match reader.into_phase() {
        Phase::Ready { view } => view,
        _ => unreachable!(),
    }
}
