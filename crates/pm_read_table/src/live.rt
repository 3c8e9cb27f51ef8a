//! The entries of the live files, in the order in which they come.

ghost use Rattle.std.specs.Prelude.{◌≡◌, ◌++◌, ◌∷◌, List, not, is_some, reverse, Some, true, IfOk, OnOk};
ghost use Rattle.indexmap.specs.IndexMap.{get, Updates};
ghost use Rattle.pm_manifest.specs.FileId.{id_eq};
ghost use Rattle.pm_manifest.specs.Live.{id_of};
ghost use Rattle.pm_manifest.specs.declared.entry.Entry.{Entry as EntryView};
ghost use Rattle.pm_read_table.specs.View.{kept_for, live_entries, HaveIds};

use crate::asked::Wanted;
use indexmap::IndexMap;
use pm_manifest::{Entry, FileId};
use std::alloc::{AllocError, Global};

/// Puts the entries of a manifest to those that are kept, where they are asked for.
pub(crate) fn keep(
    alloc: Global,
    wanted: Wanted,
    kept: &mut Vec<Entry>,
    entries: &[Entry],
) -> Result<(), AllocError>
    ensures { OnOk result (kept.new.items ≡ kept.old.items ++ kept_for wanted entries.now) }
{
    match wanted {
        Wanted::Entries | Wanted::Whole { .. } => append_copies(alloc, kept, entries),
        _ => Ok(()),
    }
}

/// Puts copies of entries to others.
fn append_copies(alloc: Global, kept: &mut Vec<Entry>, entries: &[Entry]) -> Result<(), AllocError>
    ensures { OnOk result (kept.new.items ≡ kept.old.items ++ entries.now) }
{
    for entry in entries {
        kept.push(entry.copy(alloc)?)?;
    }
    Ok(())
}

/// The entries of the files that are live after the entries, in the order in which they come.
pub(crate) fn live_entries(alloc: Global, entries: Vec<Entry>) -> Result<Vec<Entry>, AllocError>
    ensures { IfOk result (λ live. live.items ≡ live_entries entries.items) }
{
    let mut backwards = entries;
    backwards.reverse();
    match live_backwards(alloc, backwards) {
        Ok(live) => {
            let mut live = live;
            live.reverse();
            Ok(live)
        }
        Err(error) => Err(error),
    }
}

/// The same of entries that come backwards, backwards.
fn live_backwards(alloc: Global, entries: Vec<Entry>) -> Result<Vec<Entry>, AllocError>
    ensures { IfOk result (λ live. live_entries (reverse entries.items) ≡ reverse live.items) }
{
    let mut later = IndexMap::new(alloc);
    let mut live = Vec::new(alloc);
    for entry in entries {
        take_before(alloc, &mut later, &mut live, entry)?;
    }
    Ok(live)
}

/// Takes the entry before those whose files are known, which are the later ones: it is live where it adds its file, and
/// none of them is of that.
fn take_before(
    alloc: Global,
    later: &mut IndexMap<FileId, bool>,
    live: &mut Vec<Entry>,
    entry: Entry,
) -> Result<(), AllocError>
    ensures { OnOk result ((es : List EntryView) → HaveIds (get id_eq later.old) es
        → live_entries es ≡ reverse live.old.items
        → HaveIds (get id_eq later.new) (entry ∷ es) × (live_entries (entry ∷ es) ≡ reverse live.new.items)) }
{
    let is_last = note(alloc, later, &entry)?;
    if entry.add && is_last {
        live.push(entry)?;
    } else {
        drop(entry);
    }
    Ok(())
}

/// Makes the file of an entry known, and answers whether it wasn't.
fn note(
    alloc: Global,
    later: &mut IndexMap<FileId, bool>,
    entry: &Entry,
) -> Result<bool, AllocError>
    ensures new { IfOk result (λ is_new. is_new ≡ not (is_some (get id_eq later.old (id_of entry.now)))) }
    ensures noted { OnOk result (Updates id_eq later.old later.new (id_of entry.now) (Some true)) }
{
    let id = entry.id(alloc)?;
    let is_new = !later.contains_key(&id);
    later.insert(id, true)?;
    Ok(is_new)
}
