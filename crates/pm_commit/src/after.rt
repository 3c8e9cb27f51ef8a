//! What a committer goes on with after an answer.
//!
//! What isn't handed on is dropped by name, as in `pm_read_table`.

ghost use Rattle.std.specs.Prelude.{◌≡◌, ◌<◌, ◌≤◌, length, IsSomeAnd};
ghost use Rattle.pm_store.specs.Answers.{MayAnswer};
ghost use Rattle.pm_store.specs.declared.answer.Answer.TheVariants as answers;
ghost use Rattle.pm_read_table.specs.Reader as readers;
ghost use Rattle.pm_read_table.specs.Reader.{most};
ghost use Rattle.pm_read_table.specs.declared.phase.Phase.TheVariants as reader_phases;
ghost use Rattle.pm_commit.specs.Committer.{After, AfterReader, Hears, Makes, Reads, Seeks};
ghost use Rattle.pm_commit.specs.Committer.{first_of_try, IsViewing, MayMake, Misreads};
ghost use Rattle.pm_commit.specs.Own.{IsOwn};
ghost use Rattle.pm_schema.specs.Again.{IsDeclared};
ghost use Rattle.pm_schema.specs.declared.schema.TableSchema.{TableSchema as SchemaView};
ghost use Rattle.pm_commit.specs.declared.phase.Phase.TheVariants as phases;

use crate::found::Found;
use crate::marks::used_path;
use crate::own::Own;
use crate::phase::Phase;
use crate::put::put;
use crate::search::{Searching, Seen, older_ids, seen_in, seen_of};
use pm_base::{Blob, Txt};
use pm_machine::Machine;
use pm_made::Newest;
use pm_manifest::read_entry_law;
use pm_paths::snapshot_path;
use pm_read_table::{View, ViewReader, into_view, is_view_ready, newest_entries};
use pm_schema::TableSchema;
use pm_snapshot::{SnapFault, read_snapshot};
use pm_store::Answer;
use pm_values::Refusal;
use std::alloc::Global;
use std::collections::VecDeque;

/// What follows once the manifests were listed.
pub(crate) fn after_names(
    alloc: Global,
    own: Own,
    schema: TableSchema,
    names: Vec<Txt>,
) -> Result<Phase, Refusal>
    requires { IsOwn schema own }
    ensures { After (phases.Names own schema) (answers.Listed names) result }
{
    let used = used_path(alloc, &own.names, names.as_slice());
    drop(names);
    match used {
        Ok(None) => Ok(begin(own, schema)),
        Ok(Some(path)) => {
            drop(own);
            drop(schema);
            Err(Refusal::SessionUsed { path })
        }
        Err(_) => {
            drop(own);
            drop(schema);
            Err(Refusal::Memory)
        }
    }
}

/// The phase at the beginning of a try.
pub(crate) fn begin(own: Own, schema: TableSchema) -> Phase
    requires { IsDeclared schema }
    ensures { result ≡ first_of_try own schema }
{
    Phase::View {
        own,
        reader: newest_entries(schema),
    }
}

/// What follows an answer to a call of the view's reader.
pub(crate) fn after_view(
    alloc: Global,
    own: Own,
    reader: ViewReader,
    answer: Answer,
) -> Result<Phase, Refusal>
    requires may { IsSomeAnd (readers.next_call reader) (λ call. MayAnswer call answer) }
    requires viewing { IsViewing own reader }
    ensures { After (phases.View own reader) answer result }
{
    read_entry_law();
    let mut reader = reader;
    match reader.take(alloc, answer) {
        Ok(()) => after_reader(alloc, own, reader),
        Err(refusal) => {
            drop(own);
            drop(reader);
            Err(refusal)
        }
    }
}

/// What follows with this reader: the try goes on once its view is ready.
fn after_reader(alloc: Global, own: Own, reader: ViewReader) -> Result<Phase, Refusal>
    requires { (s : SchemaView) × Reads reader s × IsOwn s own }
    ensures { AfterReader own reader result }
{
    if is_view_ready(&reader) {
        after_ready(alloc, own, into_view(reader))
    } else {
        Ok(Phase::View { own, reader })
    }
}

/// What follows once the view of the newest snapshot is ready.
fn after_ready(alloc: Global, own: Own, view: View) -> Result<Phase, Refusal>
    requires { (s : SchemaView) × Reads (reader_phases.Ready view) s × IsOwn s own }
    ensures { AfterReader own (reader_phases.Ready view) result }
{
    let View {
        id,
        snapshot,
        schema,
        listed,
        groups,
        manifests,
        live,
        ..
    } = view;
    drop(groups);
    let mut own = own;
    own.begin(id);
    let newest = Newest {
        id,
        snapshot,
        manifests,
        live,
    };
    let found = Found { schema, newest };
    if own.check {
        let said = seen_in(&own.author, &found.newest.snapshot);
        hear(alloc, own, found, older_ids(listed), said)
    } else {
        drop(listed);
        make(alloc, own, found)
    }
}

/// What follows once a snapshot said this of the commit, with the older ones that are left.
fn hear(
    alloc: Global,
    own: Own,
    found: Found,
    left: VecDeque<u64>,
    said: Seen,
) -> Result<Phase, Refusal>
    requires may { MayMake own found }
    requires few { length left.items ≤ most }
    ensures { Hears own found left.items said result }
{
    match said {
        Seen::Other => seek(alloc, own, found, left),
        Seen::Below => {
            drop(left);
            make(alloc, own, found)
        }
        Seen::Reached => {
            drop(found);
            drop(left);
            Ok(Phase::Already {
                author: own.into_author(),
            })
        }
    }
}

/// What follows with these older snapshots left.
fn seek(alloc: Global, own: Own, found: Found, left: VecDeque<u64>) -> Result<Phase, Refusal>
    requires may { MayMake own found }
    requires few { length left.items ≤ most }
    ensures { Seeks own found left.items result }
{
    let mut left = left;
    match left.pop_front() {
        Some(id) => Ok(Phase::Search {
            own,
            searching: Searching { found, id, left },
        }),
        None => {
            drop(left);
            make(alloc, own, found)
        }
    }
}

/// What follows once this was found at the path of an older snapshot.
pub(crate) fn after_search(
    alloc: Global,
    own: Own,
    searching: Searching,
    bytes: Option<Blob>,
) -> Result<Phase, Refusal>
    requires may { MayMake own searching.found }
    requires few { length searching.left < most }
    ensures { After (phases.Search own searching) (answers.Found bytes) result }
{
    let Searching { found, id, left } = searching;
    let Some(bytes) = bytes else {
        drop(left);
        return make(alloc, own, found);
    };
    let read = read_snapshot(alloc, id, bytes.as_bytes());
    drop(bytes);
    match read {
        Ok(snapshot) => {
            let said = seen_of(&own.author, &snapshot);
            drop(snapshot);
            hear(alloc, own, found, left, said)
        }
        Err(fault) => {
            drop(own);
            drop(found);
            drop(left);
            Err(misread(alloc, id, fault))
        }
    }
}

/// The refusal of a snapshot's file that wasn't read.
fn misread(alloc: Global, id: u64, fault: SnapFault) -> Refusal
    ensures { Misreads id fault result }
{
    match fault {
        SnapFault::Memory => Refusal::Memory,
        SnapFault::Bad => match snapshot_path(alloc, id) {
            Ok(path) => Refusal::Damaged { path, place: 0 },
            Err(_) => Refusal::Memory,
        },
    }
}

/// What follows once nothing keeps the try from its commit: what it makes is to be put.
pub(crate) fn make(alloc: Global, own: Own, found: Found) -> Result<Phase, Refusal>
    requires { MayMake own found }
    ensures { Makes own found result }
{
    let mut own = own;
    let made = own.make(alloc, &found);
    let Found { schema, newest } = found;
    drop(newest);
    match made {
        Ok(made) => put(alloc, own, schema, made),
        Err(refusal) => {
            drop(own);
            drop(schema);
            Err(refusal)
        }
    }
}
