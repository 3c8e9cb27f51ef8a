//! The snapshot of a commit.

ghost use Rattle.std.specs.Prelude.{◌≡◌, ◌<◌, ◌+◌, pos, ◌-ℤ◌, int_le, filter, not, if◌then◌else◌, IfOk, Ok};
ghost use Rattle.indexmap.specs.IndexSet.{contains};
ghost use Rattle.pm_manifest.specs.FileId.{id_eq};
ghost use Rattle.pm_manifest.specs.Live.{id_of};
ghost use Rattle.pm_manifest.specs.declared.entry.Entry.{Entry as EntryView};
ghost use Rattle.pm_model_folder.specs.Entries.{least_delta, rows_added, rows_in_files};
ghost use Rattle.pm_snapshot.specs.Names.{greatest};
ghost use Rattle.pm_snapshot.specs.Snapshot.{IsConsistent, snapshot_in, snapshot_text};
ghost use Rattle.pm_made.specs.Delta.{left_of, Delta, IsDeltaOf};
ghost use Rattle.pm_made.specs.Intent.{removed_of};
ghost use Rattle.pm_made.specs.Snapshot.{appends_after, appends_of, fence_after, full_after, full_of, kind_of};
ghost use Rattle.pm_made.specs.Snapshot.{new_snapshot, watermark_of};

use crate::intent::Intent;
use crate::limits::fence_of;
use crate::newest::{Author, Newest};
use crate::removed::{files_of, is_among, removed_of};
use indexmap::IndexSet;
use pm_base::{Blob, Txt};
use pm_manifest::{Entry, FileId};
use pm_schema::TableSchema;
use pm_snapshot::{CommitKind, Snapshot, write_snapshot};
use std::alloc::{AllocError, Global};

/// The names of a snapshot's lists.
#[derive(Drop)]
pub struct ListNames {
    pub base: Txt,
    pub delta: Txt,
    /// None where it has no changelog file.
    pub changes: Option<Txt>,
}

// ---- by what it is for

/// The kind that its commit has.
fn kind_of(intent: &Intent) -> CommitKind
    ensures { result ≡ kind_of intent.now }
{
    match intent {
        Intent::Append { .. } => CommitKind::Append,
        Intent::Compact { .. } | Intent::Fence { .. } => CommitKind::Compact,
    }
}

/// How many commits appended rows up to a snapshot.
fn appends_of(snapshot: &Option<Snapshot>) -> u64
    ensures { result ≡ appends_of snapshot.now }
{
    match snapshot {
        Some(snapshot) => snapshot.appends,
        None => 0,
    }
}

/// And up to the next one.
fn appends_after(snapshot: &Option<Snapshot>, intent: &Intent) -> Result<u64, AllocError>
    ensures { IfOk result (λ n. n ≡ appends_after snapshot.now intent.now) }
{
    match intent {
        Intent::Append { .. } => sum(appends_of(snapshot), 1),
        Intent::Compact { .. } | Intent::Fence { .. } => Ok(appends_of(snapshot)),
    }
}

/// How many did up to the view of the last compaction that was asked in full.
fn full_of(snapshot: &Option<Snapshot>) -> u64
    ensures { result ≡ full_of snapshot.now }
{
    match snapshot {
        Some(snapshot) => snapshot.full,
        None => 0,
    }
}

/// And of the next snapshot.
fn full_after(snapshot: &Option<Snapshot>, intent: &Intent) -> u64
    ensures { result ≡ full_after snapshot.now intent.now }
{
    match intent {
        Intent::Compact { plan } => plan.full.unwrap_or(full_of(snapshot)),
        Intent::Append { .. } | Intent::Fence { .. } => full_of(snapshot),
    }
}

/// The fence of the next snapshot.
fn fence_after(snapshot: &Option<Snapshot>, intent: &Intent) -> i64
    ensures { result ≡ fence_after snapshot.now intent.now }
{
    match intent {
        Intent::Fence { fence } => *fence,
        Intent::Append { .. } | Intent::Compact { .. } => fence_of(snapshot),
    }
}

/// The mark that the next snapshot takes over.
fn watermark_of(snapshot: &Option<Snapshot>) -> Option<i64>
    ensures { result ≡ watermark_of snapshot.now }
{
    match snapshot {
        Some(snapshot) => snapshot.watermark,
        None => None,
    }
}

// ---- its counts

/// A count as a snapshot has it. One that it can't have is answered as out of memory.
fn signed(count: u64) -> Result<i64, AllocError>
    ensures { IfOk result (λ n. n ≡ pos count) }
{
    match i64::try_from(count) {
        Ok(n) => Ok(n),
        Err(_) => Err(AllocError),
    }
}

/// The sum of two numbers. One above 2^64 - 1 is answered as out of memory.
fn sum(a: u64, b: u64) -> Result<u64, AllocError>
    ensures { IfOk result (λ n. n ≡ a + b) }
{
    match a.checked_add(b) {
        Some(n) => Ok(n),
        None => Err(AllocError),
    }
}

/// The rows that files have by their entries. More than 2^64 - 1 are answered as out of memory.
fn rows_in_files(entries: &[Entry]) -> Result<u64, AllocError>
    ensures { IfOk result (λ count. count ≡ rows_in_files entries.now) }
{
    let mut count: u64 = 0;
    for entry in entries {
        count = match count.checked_add(entry.file.rows) {
            Some(more) => more,
            None => return Err(AllocError),
        };
    }
    Ok(count)
}

/// The rows of the entries whose files are none of these. More than 2^64 - 1 are answered as out of memory.
fn rows_without(
    alloc: Global,
    gone: &IndexSet<FileId>,
    entries: &[Entry],
) -> Result<u64, AllocError>
    ensures { IfOk result (λ count.
        count ≡ rows_in_files (filter (λ (e : EntryView). not (contains id_eq gone.now (id_of e))) entries.now)) }
{
    let mut count: u64 = 0;
    for entry in entries {
        if !is_among(alloc, gone, entry)? {
            count = sum(count, entry.file.rows)?;
        }
    }
    Ok(count)
}

/// The rows of the live files that are left without those of these entries. It looks at each live file once.
fn rows_left(alloc: Global, removed: &[Entry], live: &[Entry]) -> Result<u64, AllocError>
    ensures { IfOk result (λ count. count ≡ rows_in_files (left_of removed.now live.now)) }
{
    if removed.is_empty() {
        return rows_in_files(live);
    }
    let gone = files_of(alloc, removed)?;
    rows_without(alloc, &gone, live)
}

/// The rows that entries add, and those that they take away.
fn rows_both(entries: &[Entry]) -> Result<(u64, u64), AllocError>
    ensures added { IfOk result (λ c. c.0 ≡ rows_in_files (filter (λ (e : EntryView). e.add) entries.now)) }
    ensures removed { IfOk result (λ c. c.1 ≡ rows_in_files (filter (λ (e : EntryView). not e.add) entries.now)) }
{
    let mut added: u64 = 0;
    let mut removed: u64 = 0;
    for entry in entries {
        if entry.add {
            added = sum(added, entry.file.rows)?;
        } else {
            removed = sum(removed, entry.file.rows)?;
        }
    }
    Ok((added, removed))
}

/// The rows that came less those that went, or the least number that a snapshot can have of them. A number above those
/// that it can have is answered as out of memory.
fn difference(added: u64, removed: u64) -> Result<i64, AllocError>
    ensures { IfOk result (λ n.
        n ≡ (if int_le least_delta (pos added -ℤ pos removed) then pos added -ℤ pos removed else least_delta)) }
{
    let change = i128::from(added) - i128::from(removed);
    if change < i128::from(i64::MIN) {
        return Ok(i64::MIN);
    }
    match i64::try_from(change) {
        Ok(n) => Ok(n),
        Err(_) => Err(AllocError),
    }
}

/// How many rows are live, once these files went and those of the entries came, and how many the entries add.
fn counts(
    alloc: Global,
    removed: &[Entry],
    live: &[Entry],
    entries: &[Entry],
) -> Result<(i64, i64), AllocError>
    ensures total { IfOk result (λ c. c.0 ≡ pos (rows_in_files (left_of removed.now live.now)
        + rows_in_files (filter (λ (e : EntryView). e.add) entries.now))) }
    ensures delta { IfOk result (λ c. c.1 ≡ rows_added entries.now) }
{
    let (added, gone) = rows_both(entries)?;
    let total = sum(rows_left(alloc, removed, live)?, added)?;
    Ok((signed(total)?, difference(added, gone)?))
}

// ---- all of it

/// The snapshot after the newest, of a delta with these entries and changelog files.
fn new_snapshot(
    alloc: Global,
    schema: &TableSchema,
    newest: &Newest,
    author: &Author,
    intent: &Intent,
    entries: &[Entry],
    changes: &[Entry],
    lists: ListNames,
) -> Result<Snapshot, AllocError>
    requires { newest.now.id < greatest }
    ensures { IfOk result (λ x. (d : Delta) → IsDeltaOf (removed_of intent.now) entries.now changes.now d
        → x ≡ new_snapshot schema.now newest.now author.now intent.now d lists) }
{
    let (total, delta) = counts(alloc, removed_of(intent), &newest.live, entries)?;
    let changelog = signed(rows_in_files(changes)?)?;
    let appends = appends_after(&newest.snapshot, intent)?;
    let user = author.user.copy(alloc)?;
    let ListNames {
        base,
        delta: list,
        changes: changelog_list,
    } = lists;
    Ok(Snapshot {
        id: newest.id + 1,
        schema_id: schema.id,
        base_list: base,
        delta_list: list,
        changelog_list,
        user,
        ident: author.identifier,
        kind: kind_of(intent),
        time: author.time,
        total,
        delta,
        changelog: Some(changelog),
        watermark: watermark_of(&newest.snapshot),
        base: author.base,
        fence: fence_after(&newest.snapshot, intent),
        appends,
        full: full_after(&newest.snapshot, intent),
    })
}

/// The text of the snapshot after the newest.
pub(crate) fn new_text(
    alloc: Global,
    schema: &TableSchema,
    newest: &Newest,
    author: &Author,
    intent: &Intent,
    entries: &[Entry],
    changes: &[Entry],
    lists: ListNames,
) -> Result<Blob, AllocError>
    requires { newest.now.id < greatest }
    ensures text { IfOk result (λ text. (d : Delta) → IsDeltaOf (removed_of intent.now) entries.now changes.now d
        → text ≡ snapshot_text (new_snapshot schema.now newest.now author.now intent.now d lists)) }
    ensures again { IfOk result (λ text. (d : Delta) → IsDeltaOf (removed_of intent.now) entries.now changes.now d
        → IsConsistent (new_snapshot schema.now newest.now author.now intent.now d lists)
        → snapshot_in (newest.now.id + 1) text
        ≡ Ok (new_snapshot schema.now newest.now author.now intent.now d lists)) }
{
    let snapshot = new_snapshot(
        alloc, schema, newest, author, intent, entries, changes, lists,
    )?;
    let text = write_snapshot(alloc, &snapshot);
    drop(snapshot);
    Ok(Blob::new(text?))
}
