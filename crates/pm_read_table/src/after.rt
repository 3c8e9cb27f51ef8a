//! What a reader goes on with after an answer.
//!
//! What isn't handed on is dropped by name. Left to the end of its scope it would be taken apart there, and each of its
//! variants proved at each such place.

ghost use Rattle.std.specs.Prelude.{◌≡◌, ◌⊎◌, ◌++◌, ℕ, [], ◌≤◌, length, Some, Ok, IfOk, IfErr, OnOk};
ghost use Rattle.indexmap.specs.IndexMap.{get};
ghost use Rattle.pm_model_contents.specs.Groups.{AreNamed, HaveFolders, Overlaps};
ghost use Rattle.pm_model_contents.specs.Lists.{manifest_path};
ghost use Rattle.pm_model_folder.specs.Paths.{schema_path, snapshot_path};
ghost use Rattle.pm_manifest.specs.FileId.{id_eq};
ghost use Rattle.pm_manifest.specs.Live.{AreInOrder, Leaves, Refuses};
ghost use Rattle.pm_record.specs.File.{IsMemoryOr};
ghost use Rattle.pm_schema.specs.Again.{IsDeclared};
ghost use Rattle.pm_snapshot.specs.Snapshot.{snapshot_in};
ghost use Rattle.pm_store.specs.declared.answer.Answer.TheVariants as answers;
ghost use Rattle.pm_read_table.specs.View.{HaveGroups};
ghost use Rattle.pm_read_table.specs.Reader.{most, opening, Goes, GoesOn, IsAbove, IsAsked, IsBad, IsViewer, Shown};
ghost use Rattle.pm_read_table.specs.Reader.{RefusesEntries, Starts, Takes};
ghost use Rattle.pm_read_table.specs.View.{kept_for, HasFolders, IsOriginView, IsSoughtBy, IsViewOf};
ghost use Rattle.pm_read_table.specs.Asked.{Asked as AskedView, ListsFirst};
ghost use Rattle.pm_read_table.specs.declared.phase.Phase.TheVariants as phases;
ghost use Rattle.pm_values.specs.declared.refusal.Refusal.TheVariants as refusals;

use crate::asked::{Asked, Sought, Wanted};
use crate::live::{keep, live_entries};
use crate::phase::Phase;
use crate::reading::Reading;
use crate::view::View;
use indexmap::IndexMap;
use pm_avro_file::KnownType;
use pm_base::{Blob, Txt};
use pm_levels::Levels;
use pm_manifest::{Entry, FileId, ManifestMeta, fold_entries, read_entry_law};
use pm_manifest_reader::{read_list, read_manifest_by};
use pm_model_contents::{folder_law, group_levels, live_law};
use pm_paths::{ids_of, latest_of, manifest_path, schema_path, snapshot_path};
use pm_schema::TableSchema;
use pm_snapshot::{SnapFault, Snapshot, read_snapshot};
use pm_values::{Group, Refusal};
use std::alloc::{AllocError, Global};
use std::collections::{BTreeMap, VecDeque};

/// The phase once the snapshots were listed.
pub(crate) fn after_list(alloc: Global, asked: Asked, names: Vec<Txt>) -> Result<Phase, Refusal>
    requires lists { ListsFirst asked.wanted }
    ensures goes { IfOk result (Goes (phases.List asked) (answers.Listed names)) }
    ensures is_viewer { IfOk result IsViewer }
    ensures refuses { IfErr result (Shown (phases.List asked) (answers.Listed names)) }
{
    let latest = latest_of(names.as_slice());
    match ids_of(alloc, names.as_slice()) {
        Ok(listed) => after_latest(Sought::new(asked, listed), latest),
        Err(_) => {
            drop(asked);
            Err(Refusal::Memory)
        }
    }
}

/// The phase once this is known to be the latest snapshot.
fn after_latest(sought: Sought, latest: u64) -> Result<Phase, Refusal>
    requires lists { ListsFirst sought.asked.wanted }
    ensures goes { IfOk result (λ later. (id : ℕ) × IsAsked sought.asked.wanted latest id
        × (later ≡ opening sought id)) }
    ensures is_viewer { IfOk result IsViewer }
    ensures refuses { IfErr result (λ refusal. (id : ℕ) × IsAbove sought.asked.wanted latest id
        × (refusal ≡ refusals.NoSnapshot id latest)) }
{
    match sought.wanted() {
        Wanted::Newest | Wanted::Entries => Ok(opening(sought, latest)),
        Wanted::At { id } => {
            if latest < id {
                drop(sought);
                Err(Refusal::NoSnapshot { id, latest })
            } else {
                Ok(opening(sought, id))
            }
        }
        Wanted::Whole { .. } => unreachable!(),
    }
}

/// The phase in which the snapshot with this id is to be read.
fn opening(sought: Sought, id: u64) -> Phase
    ensures { result ≡ opening sought id }
{
    if id == 0 {
        Phase::Origin { sought }
    } else {
        Phase::Snapshot { sought, id }
    }
}

/// The phase once this was found at the path of the origin.
pub(crate) fn after_origin(
    alloc: Global,
    sought: Sought,
    found: Option<Blob>,
) -> Result<Phase, Refusal>
    ensures goes { IfOk result (Goes (phases.Origin sought) (answers.Found found)) }
    ensures is_viewer { IfOk result IsViewer }
    ensures refuses { IfErr result (Shown (phases.Origin sought) (answers.Found found)) }
{
    match found {
        Some(bytes) => {
            drop(bytes);
            Ok(Phase::Ready {
                view: origin_view(alloc, sought),
            })
        }
        None => Err(expired(sought, 0)),
    }
}

/// The refusal of a snapshot whose file is absent.
fn expired(sought: Sought, id: u64) -> Refusal
    ensures { result ≡ refusals.Expired id }
{
    drop(sought);
    Refusal::Expired { id }
}

/// The view of a table at its origin.
fn origin_view(alloc: Global, sought: Sought) -> View
    ensures view { IsOriginView sought.asked.schema result }
    ensures sought { IsSoughtBy sought result }
    ensures folders { HasFolders result }
    ensures groups { HaveGroups result.schema result.live.items }
    ensures declared { IsDeclared result.schema }
{
    let Sought { asked, listed } = sought;
    let Asked { schema, wanted } = asked;
    View {
        wanted,
        id: 0,
        snapshot: None,
        schema,
        listed,
        groups: BTreeMap::new(alloc),
        manifests: Vec::new(alloc),
        live: Vec::new(alloc),
    }
}

/// The phase once this was found at the path of the snapshot with an id.
pub(crate) fn after_snapshot(
    alloc: Global,
    sought: Sought,
    id: u64,
    found: Option<Blob>,
) -> Result<Phase, Refusal>
    ensures goes { IfOk result (Goes (phases.Snapshot sought id) (answers.Found found)) }
    ensures is_viewer { IfOk result IsViewer }
    ensures refuses { IfErr result (Shown (phases.Snapshot sought id) (answers.Found found)) }
{
    match found {
        Some(bytes) => after_bytes(alloc, sought, id, bytes),
        None => Err(expired(sought, id)),
    }
}

/// The phase once these bytes were found at the path of the snapshot with an id.
fn after_bytes(alloc: Global, sought: Sought, id: u64, bytes: Blob) -> Result<Phase, Refusal>
    ensures goes { IfOk result (Goes (phases.Snapshot sought id) (answers.Found (Some bytes))) }
    ensures is_viewer { IfOk result IsViewer }
    ensures refuses { IfErr result (Shown (phases.Snapshot sought id) (answers.Found (Some bytes))) }
{
    match read_named(alloc, sought.schema(), id, bytes.as_bytes()) {
        Ok(snapshot) => Ok(Phase::Base { sought, snapshot }),
        Err(refusal) => {
            drop(sought);
            Err(refusal)
        }
    }
}

/// The snapshot with an id, which these bytes of its file are to be read as, and which is to name the table's schema.
pub fn read_named(
    alloc: Global,
    schema: &TableSchema,
    id: u64,
    bytes: &[u8],
) -> Result<Snapshot, Refusal>
    ensures reads { IfOk result (λ x. snapshot_in id bytes.now ≡ Ok x) }
    ensures schema { IfOk result (λ x. x.schema_id ≡ schema.now.id) }
    ensures refuses { IfErr result (λ refusal. (refusal ≡ refusals.Memory) ⊎ IsBad schema.now id bytes.now refusal) }
{
    match read_snapshot(alloc, id, bytes) {
        Ok(snapshot) => {
            if snapshot.schema_id == schema.id {
                Ok(snapshot)
            } else {
                let other = snapshot.schema_id;
                drop(snapshot);
                Err(damaged_schema(alloc, other))
            }
        }
        Err(SnapFault::Memory) => Err(Refusal::Memory),
        Err(SnapFault::Bad) => Err(damaged_snapshot(alloc, id)),
    }
}

/// The refusal of the snapshot's file with an id, whose path may take memory.
fn damaged_snapshot(alloc: Global, id: u64) -> Refusal
    ensures { IsMemoryOr (refusals.Damaged (snapshot_path id) 0) result }
{
    match snapshot_path(alloc, id) {
        Ok(path) => Refusal::Damaged { path, place: 0 },
        Err(_) => Refusal::Memory,
    }
}

/// The refusal of the schema's file with an id, whose path may take memory.
fn damaged_schema(alloc: Global, id: u64) -> Refusal
    ensures { IsMemoryOr (refusals.Damaged (schema_path id) 0) result }
{
    match schema_path(alloc, id) {
        Ok(path) => Refusal::Damaged { path, place: 0 },
        Err(_) => Refusal::Memory,
    }
}

/// The phase once this was found at the path of the base list.
pub(crate) fn after_base(
    alloc: Global,
    sought: Sought,
    snapshot: Snapshot,
    found: Option<Blob>,
) -> Result<Phase, Refusal>
    ensures goes { IfOk result (Goes (phases.Base sought snapshot) (answers.Found found)) }
    ensures is_viewer { IfOk result IsViewer }
    ensures refuses { IfErr result (Shown (phases.Base sought snapshot) (answers.Found found)) }
{
    let path = match manifest_path(alloc, &snapshot.base_list) {
        Ok(path) => path,
        Err(_) => {
            drop(sought);
            drop(snapshot);
            return Err(Refusal::Memory);
        }
    };
    let id = snapshot.id;
    match found {
        Some(bytes) => match read_list(alloc, path.as_str(), bytes) {
            Ok(base) => Ok(Phase::Delta {
                sought,
                snapshot,
                base,
            }),
            Err(refusal) => {
                drop(sought);
                drop(snapshot);
                Err(refusal)
            }
        },
        None => {
            drop(snapshot);
            Ok(Phase::Again {
                asked: sought.into_asked(),
                id,
                path,
            })
        }
    }
}

/// The phase once this was found at the path of the delta list.
pub(crate) fn after_delta(
    alloc: Global,
    sought: Sought,
    snapshot: Snapshot,
    base: Vec<ManifestMeta>,
    found: Option<Blob>,
) -> Result<Phase, Refusal>
    ensures goes { IfOk result (Goes (phases.Delta sought snapshot base) (answers.Found found)) }
    ensures is_viewer { IfOk result IsViewer }
    ensures refuses { IfErr result (Shown (phases.Delta sought snapshot base) (answers.Found found)) }
{
    let path = match manifest_path(alloc, &snapshot.delta_list) {
        Ok(path) => path,
        Err(_) => {
            drop(sought);
            drop(snapshot);
            drop(base);
            return Err(Refusal::Memory);
        }
    };
    let id = snapshot.id;
    match found {
        Some(bytes) => match read_list(alloc, path.as_str(), bytes) {
            Ok(delta) => after_lists(alloc, sought, snapshot, base, delta),
            Err(refusal) => {
                drop(sought);
                drop(snapshot);
                drop(base);
                Err(refusal)
            }
        },
        None => {
            drop(snapshot);
            drop(base);
            Ok(Phase::Again {
                asked: sought.into_asked(),
                id,
                path,
            })
        }
    }
}

/// The phase once both lists were read.
fn after_lists(
    alloc: Global,
    sought: Sought,
    snapshot: Snapshot,
    base: Vec<ManifestMeta>,
    delta: Vec<ManifestMeta>,
) -> Result<Phase, Refusal>
    ensures goes { IfOk result (Starts sought snapshot (base.items ++ delta.items)) }
    ensures is_viewer { IfOk result IsViewer }
    ensures memory { IfErr result (λ refusal. refusal ≡ refusals.Memory) }
{
    live_law();
    match joined(base, delta) {
        Ok(manifests) => go_on(
            alloc,
            sought,
            snapshot,
            Vec::new(alloc),
            VecDeque::from(manifests),
            IndexMap::new(alloc),
            Vec::new(alloc),
            None,
        ),
        Err(_) => {
            drop(sought);
            drop(snapshot);
            Err(Refusal::Memory)
        }
    }
}

/// The manifests of two lists.
fn joined(
    base: Vec<ManifestMeta>,
    delta: Vec<ManifestMeta>,
) -> Result<Vec<ManifestMeta>, AllocError>
    ensures items { IfOk result (λ all. all.items ≡ base.items ++ delta.items) }
    ensures within { IfOk result (λ all. length all.items ≤ most) }
{
    let (mut base, mut delta) = (base, delta);
    let appended = base.append(&mut delta);
    drop(delta);
    match appended {
        Ok(()) => Ok(base),
        Err(error) => {
            drop(base);
            Err(error)
        }
    }
}

/// The phase with these manifests read and those left, these live files, the entries that were kept, and the type of
/// the last manifest's records.
fn go_on(
    alloc: Global,
    sought: Sought,
    snapshot: Snapshot,
    done: Vec<ManifestMeta>,
    left: VecDeque<ManifestMeta>,
    live: IndexMap<FileId, Entry>,
    kept: Vec<Entry>,
    known: Option<KnownType>,
) -> Result<Phase, Refusal>
    requires named { AreNamed (get id_eq live) }
    requires folders { HaveFolders sought.asked.schema (get id_eq live) }
    requires groups { HaveGroups sought.asked.schema kept.items }
    ensures goes { IfOk result (GoesOn sought snapshot done.items left.items live.entries kept.items) }
    ensures is_viewer { IfOk result IsViewer }
    ensures refuses { IfErr result (λ refusal. (left.items ≡ [])
        × Overlaps sought.asked.schema (get id_eq live) refusal) }
{
    let mut rest = left;
    match rest.pop_front() {
        Some(next) => Ok(Phase::Manifests {
            reading: Reading {
                sought,
                snapshot,
                done,
                next,
                rest,
                live,
                kept,
                known,
            },
        }),
        None => {
            drop(rest);
            drop(known);
            match view_of(alloc, sought, snapshot, done, live, kept) {
                Ok(view) => Ok(Phase::Ready { view }),
                Err(refusal) => Err(refusal),
            }
        }
    }
}

/// The view of a table at a snapshot with these manifests, live files and kept entries.
fn view_of(
    alloc: Global,
    sought: Sought,
    snapshot: Snapshot,
    manifests: Vec<ManifestMeta>,
    live: IndexMap<FileId, Entry>,
    kept: Vec<Entry>,
) -> Result<View, Refusal>
    requires named { AreNamed (get id_eq live) }
    requires folders { HaveFolders sought.asked.schema (get id_eq live) }
    requires groups { HaveGroups sought.asked.schema kept.items }
    ensures view { IfOk result (IsViewOf sought.asked.schema snapshot manifests.items kept.items (get id_eq live)) }
    ensures sought { IfOk result (IsSoughtBy sought) }
    ensures folders { IfOk result HasFolders }
    ensures groups { IfOk result (λ v. HaveGroups v.schema v.live.items) }
    ensures declared { IfOk result (λ v. IsDeclared v.schema) }
    ensures refuses { IfErr result (Overlaps sought.asked.schema (get id_eq live)) }
{
    let Ok(entries) = live_entries(alloc, kept) else {
        drop(sought);
        drop(snapshot);
        drop(manifests);
        drop(live);
        return Err(Refusal::Memory);
    };
    match group_levels(alloc, sought.schema(), live) {
        Ok(groups) => Ok(view_with(sought, snapshot, manifests, groups, entries)),
        Err(refusal) => {
            drop(sought);
            drop(snapshot);
            drop(manifests);
            drop(entries);
            Err(refusal)
        }
    }
}

/// The view of a table at a snapshot with these manifests, groups and live entries.
fn view_with(
    sought: Sought,
    snapshot: Snapshot,
    manifests: Vec<ManifestMeta>,
    groups: BTreeMap<Group, Levels>,
    live: Vec<Entry>,
) -> View
    ensures table { (result.id ≡ snapshot.id) × (result.snapshot ≡ Some snapshot)
        × (result.schema ≡ sought.asked.schema) }
    ensures parts { (result.groups ≡ groups) × (result.manifests ≡ manifests) × (result.live ≡ live) }
    ensures sought { IsSoughtBy sought result }
    ensures declared { IsDeclared result.schema }
{
    let Sought { asked, listed } = sought;
    let Asked { schema, wanted } = asked;
    View {
        wanted,
        id: snapshot.id,
        snapshot: Some(snapshot),
        schema,
        listed,
        groups,
        manifests,
        live,
    }
}

/// The phase once this was found at the path of the next manifest.
pub(crate) fn after_manifest(
    alloc: Global,
    reading: Reading,
    found: Option<Blob>,
) -> Result<Phase, Refusal>
    ensures goes { IfOk result (Goes (phases.Manifests reading) (answers.Found found)) }
    ensures is_viewer { IfOk result IsViewer }
    ensures refuses { IfErr result (Shown (phases.Manifests reading) (answers.Found found)) }
{
    let path = match manifest_path(alloc, &reading.next.name) {
        Ok(path) => path,
        Err(_) => {
            drop(reading);
            return Err(Refusal::Memory);
        }
    };
    match found {
        Some(bytes) => after_file(alloc, reading, path, bytes),
        None => Ok(again(reading, path)),
    }
}

/// The phase in which the snapshot is to be read again, since the next manifest, which is at this path, is absent.
fn again(reading: Reading, path: Txt) -> Phase
    ensures { result ≡ phases.Again reading.sought.asked reading.snapshot.id path }
{
    let Reading {
        sought,
        snapshot,
        done,
        next,
        rest,
        live,
        kept,
        known,
    } = reading;
    let id = snapshot.id;
    drop(snapshot);
    drop(done);
    drop(next);
    drop(rest);
    drop(live);
    drop(kept);
    drop(known);
    Phase::Again {
        asked: sought.into_asked(),
        id,
        path,
    }
}

/// The phase once these bytes were found at the path of the next manifest.
fn after_file(alloc: Global, reading: Reading, path: Txt, bytes: Blob) -> Result<Phase, Refusal>
    requires path { path ≡ manifest_path reading.next.name }
    ensures goes { IfOk result (Goes (phases.Manifests reading) (answers.Found (Some bytes))) }
    ensures is_viewer { IfOk result IsViewer }
    ensures refuses { IfErr result (Shown (phases.Manifests reading) (answers.Found (Some bytes))) }
{
    read_entry_law();
    folder_law();
    let schema = reading.sought.schema();
    match read_manifest_by(alloc, path.as_str(), schema, bytes, reading.known.as_ref()) {
        Ok((entries, known)) => after_entries(alloc, reading, path, entries, known),
        Err(refusal) => {
            drop(reading);
            Err(refusal)
        }
    }
}

/// The phase once these entries of the next manifest, which is at this path, were read, as records of this type.
fn after_entries(
    alloc: Global,
    reading: Reading,
    path: Txt,
    entries: Vec<Entry>,
    own: KnownType,
) -> Result<Phase, Refusal>
    requires fit { HaveGroups reading.sought.asked.schema entries.items }
    ensures goes { IfOk result (Takes reading entries.items) }
    ensures is_viewer { IfOk result IsViewer }
    ensures refuses { IfErr result (λ refusal. (refusal ≡ refusals.Memory)
        ⊎ RefusesEntries reading path entries.items refusal) }
{
    let Reading {
        sought,
        snapshot,
        done,
        next,
        rest,
        live,
        kept,
        known,
    } = reading;
    drop(known);
    let (mut done, mut live, mut kept) = (done, live, kept);
    live_law();
    let wanted = sought.wanted();
    if let Err(refusal) = take_in(alloc, wanted, path.as_str(), entries, &mut live, &mut kept) {
        drop(sought);
        drop(snapshot);
        drop(done);
        drop(next);
        drop(rest);
        drop(live);
        drop(kept);
        drop(own);
        return Err(refusal);
    }
    if done.push(next).is_err() {
        drop(sought);
        drop(snapshot);
        drop(done);
        drop(rest);
        drop(live);
        drop(kept);
        drop(own);
        return Err(Refusal::Memory);
    }
    go_on(alloc, sought, snapshot, done, rest, live, kept, Some(own))
}

/// Takes the entries of the manifest at a path into the live files, and into those that are kept, where they are asked
/// for.
fn take_in(
    alloc: Global,
    wanted: Wanted,
    path: &str,
    entries: Vec<Entry>,
    live: &mut IndexMap<FileId, Entry>,
    kept: &mut Vec<Entry>,
) -> Result<(), Refusal>
    ensures order { OnOk result (AreInOrder (get id_eq live.old) entries.items) }
    ensures left { OnOk result (Leaves (get id_eq live.old) entries.items (get id_eq live.new)) }
    ensures kept { OnOk result (kept.new.items ≡ kept.old.items ++ kept_for wanted entries.items) }
    ensures refused { IfErr result (λ refusal. (refusal ≡ refusals.Memory)
        ⊎ Refuses path.now entries.items (get id_eq live.old) (get id_eq live.new) refusal) }
{
    match keep(alloc, wanted, kept, entries.as_slice()) {
        Ok(()) => fold_entries(alloc, live, path, entries),
        Err(_) => {
            drop(entries);
            Err(Refusal::Memory)
        }
    }
}

/// The refusal once this was found at the path of the snapshot, after the file at a path that it names was absent.
pub(crate) fn after_again(id: u64, path: Txt, found: Option<Blob>) -> Refusal
    ensures { (asked : AskedView) → Shown (phases.Again asked id path) (answers.Found found) result }
{
    match found {
        Some(_) => Refusal::Damaged { path, place: 0 },
        None => Refusal::Expired { id },
    }
}
