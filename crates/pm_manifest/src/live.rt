//! The live files that entries leave.

ghost use Rattle.std.specs.Prelude.{◌≡◌, ◌↔◌, [], ◌∷◌, true, false, IsTrue, IfErr, OnOk, OnErr};
ghost use Rattle.indexmap.specs.IndexMap.{get};
ghost use Rattle.pm_manifest.specs.declared.entry.Entry.{Entry};
ghost use Rattle.pm_manifest.specs.FileId.{id_eq};
ghost use Rattle.pm_manifest.specs.Live.{Live, id_of, CanFollow, AreInOrder, Leaves, Refuses, RefusesEntry};

use crate::entry::Entry;
use crate::file_id::FileId;
use indexmap::IndexMap;
use pm_base::Txt;
use pm_values::Refusal;
use std::alloc::{AllocFailed, Global};

/// Takes the entries of the manifest at a path into the live files, the first one first.
///
/// An ADD of a file that is live and a DELETE of one that isn't are damage of the manifest, with offset 0. The live
/// files are then those that the entries before it left. They are so too where memory runs out, at any entry.
pub fn fold_entries(
    alloc: Global,
    live: &mut IndexMap<FileId, Entry>,
    path: &str,
    entries: Vec<Entry>,
) -> Result<(), Refusal>
    ensures order { OnOk result (AreInOrder (get id_eq live.old) entries.items) }
    ensures left { OnOk result (Leaves (get id_eq live.old) entries.items (get id_eq live.new)) }
    ensures refused { IfErr result (Refuses path.now entries.items (get id_eq live.old) (get id_eq live.new)) }
{
    for entry in entries {
        fold_entry(alloc, live, path, entry)?;
    }
    Ok(())
}

/// Takes one entry of the manifest at a path into the live files.
fn fold_entry(
    alloc: Global,
    live: &mut IndexMap<FileId, Entry>,
    path: &str,
    entry: Entry,
) -> Result<(), Refusal>
    ensures follows { OnOk result (CanFollow (get id_eq live.old) entry) }
    ensures left { OnOk result (Leaves (get id_eq live.old) (entry ∷ []) (get id_eq live.new)) }
    ensures refused { IfErr result (RefusesEntry path.now (get id_eq live.old) entry) }
    ensures kept { OnErr result (Leaves (get id_eq live.old) [] (get id_eq live.new)) }
{
    let id = entry.id(alloc)?;
    if !can_follow(live, &id, &entry) {
        return Err(damaged(alloc, path));
    }
    take_entry(live, id, entry)?;
    Ok(())
}

/// Whether the entry of that id can come next: an ADD of a file that isn't live, or a DELETE of one that is.
fn can_follow(live: &IndexMap<FileId, Entry>, id: &FileId, entry: &Entry) -> bool
    requires { id.now ≡ id_of entry.now }
    ensures { IsTrue result ↔ CanFollow (get id_eq live.now) entry.now }
{
    live.contains_key(id) != entry.add
}

/// The refusal of the manifest at a path, of which an entry can't follow; or out of memory.
fn damaged(alloc: Global, path: &str) -> Refusal
    ensures { (live : Live) (e : Entry) → (CanFollow live e → ⊥) → RefusesEntry path.now live e result }
{
    match Txt::from_str(alloc, path) {
        Ok(path) => Refusal::Damaged { path, place: 0 },
        Err(_) => Refusal::Memory,
    }
}

/// Takes the entry of that id into the live files, whatever is live of its file.
fn take_entry(
    live: &mut IndexMap<FileId, Entry>,
    id: FileId,
    entry: Entry,
) -> Result<(), AllocFailed<(FileId, Entry)>>
    requires { id ≡ id_of entry }
    ensures left { OnOk result (Leaves (get id_eq live.old) (entry ∷ []) (get id_eq live.new)) }
    ensures kept { OnErr result (Leaves (get id_eq live.old) [] (get id_eq live.new)) }
{
    if entry.add {
        return add_file(live, id, entry);
    }
    delete_file(live, id);
    Ok(())
}

/// Takes the ADD of a file into the live files.
fn add_file(
    live: &mut IndexMap<FileId, Entry>,
    id: FileId,
    entry: Entry,
) -> Result<(), AllocFailed<(FileId, Entry)>>
    requires add { entry.add ≡ true }
    requires id { id ≡ id_of entry }
    ensures left { OnOk result (Leaves (get id_eq live.old) (entry ∷ []) (get id_eq live.new)) }
    ensures kept { OnErr result (Leaves (get id_eq live.old) [] (get id_eq live.new)) }
{
    live.insert(id, entry)?;
    Ok(())
}

/// Takes the DELETE of a file into the live files.
fn delete_file(live: &mut IndexMap<FileId, Entry>, id: FileId)
    ensures { (e : Entry) → e.add ≡ false → id_of e ≡ id
        → Leaves (get id_eq live.old) (e ∷ []) (get id_eq live.new) }
{
    live.swap_remove(&id);
}
