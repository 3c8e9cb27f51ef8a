//! Which live files a commit takes away, and whether they are live still.

ghost use Rattle.std.specs.Prelude.{◌≡◌, ◌⊎◌, Some, None, IfOk, IfErr, OnOk};
ghost use Rattle.indexmap.specs.IndexSet.{contains};
ghost use Rattle.pm_values.specs.declared.refusal.Refusal.TheVariants.{Memory};
ghost use Rattle.pm_manifest.specs.FileId.{id_eq};
ghost use Rattle.pm_manifest.specs.Live.{id_of};
ghost use Rattle.pm_manifest.specs.declared.entry.Entry.{Entry as EntryView};
ghost use Rattle.pm_made.specs.Delta.{is_of_any};
ghost use Rattle.pm_made.specs.Intent.{removed_of};
ghost use Rattle.pm_made.specs.Refusals.{first_not_live, not_live};

use crate::intent::Intent;
use indexmap::IndexSet;
use pm_manifest::{Entry, FileId};
use pm_values::Refusal;
use std::alloc::{AllocError, Global};

/// The live files that are to go.
pub(crate) fn removed_of(intent: &Intent) -> &[Entry]
    ensures { result.now ≡ removed_of intent.now }
{
    match intent {
        Intent::Compact { plan } => plan.removed.as_slice(),
        Intent::Append { .. } | Intent::Fence { .. } => &[],
    }
}

/// The files that entries are of. It takes about constant time an entry, and copies its id.
pub(crate) fn files_of(alloc: Global, entries: &[Entry]) -> Result<IndexSet<FileId>, AllocError>
    ensures { IfOk result (λ files. (e : EntryView) → contains id_eq files (id_of e) ≡ is_of_any entries.now e) }
{
    let mut files = IndexSet::with_capacity(alloc, entries.len())?;
    for entry in entries {
        files.insert(entry.id(alloc)?)?;
    }
    Ok(files)
}

/// Whether the entry is of one of these files.
pub(crate) fn is_among(
    alloc: Global,
    files: &IndexSet<FileId>,
    entry: &Entry,
) -> Result<bool, AllocError>
    ensures { IfOk result (λ among. among ≡ contains id_eq files.now (id_of entry.now)) }
{
    let id = entry.id(alloc)?;
    Ok(files.contains(&id))
}

/// Judges whether all files that are to go are live: the first that isn't is the refusal's. It looks at each live file
/// once, where there are files to go, and not at all where there are none.
pub(crate) fn judge_removed(alloc: Global, live: &[Entry], removed: &[Entry]) -> Result<(), Refusal>
    ensures ok { OnOk result (first_not_live live.now removed.now ≡ None) }
    ensures err { IfErr result (λ e. (e ≡ Memory)
        ⊎ ((entry : EntryView) × (first_not_live live.now removed.now ≡ Some entry) × (e ≡ not_live entry))) }
{
    if removed.is_empty() {
        return Ok(());
    }
    let files = files_of(alloc, live)?;
    for entry in removed {
        if !is_among(alloc, &files, entry)? {
            return Err(Refusal::CompactTaken {
                file: entry.file.name.copy(alloc)?,
            });
        }
    }
    Ok(())
}
