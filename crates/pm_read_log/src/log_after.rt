//! What a reader of a changelog goes on with after an answer.

ghost use Rattle.std.specs.Prelude.{◌≡◌, ◌⊎◌, ◌++◌, ◌∷◌, [], ◌≤◌, length, Some, IfOk, IfErr, OnOk, IsTrue, ◌↔◌};
ghost use Rattle.std.specs.List.{AllByRecursion};
ghost use Rattle.pm_model_contents.specs.Lists.{IsChangelogEntry};
ghost use Rattle.pm_store.specs.declared.answer.Answer.TheVariants as answers;
ghost use Rattle.pm_read_table.specs.View.{HaveGroups};
ghost use Rattle.pm_read_log.specs.LogReader.{Goes, GoesOn, IsLogReader, Opens, Shown, TakesOwn};
ghost use Rattle.pm_read_table.specs.Reader.{most};
ghost use Rattle.pm_read_log.specs.declared.log_phase.LogPhase.TheVariants as phases;
ghost use Rattle.pm_values.specs.declared.refusal.Refusal.TheVariants as refusals;

use crate::log::{Log, LogAsked, LogReading};
use crate::log_phase::LogPhase;
use pm_base::{Blob, Txt};
use pm_manifest::{Entry, ManifestMeta, read_entry_law};
use pm_manifest_reader::{read_list, read_manifest};
use pm_model_contents::folder_law;
use pm_paths::manifest_path;
use pm_read_table::read_named;
use pm_snapshot::Snapshot;
use pm_values::Refusal;
use std::alloc::{AllocError, Global};
use std::collections::VecDeque;

/// The phase once this was found at the path of the snapshot.
pub(crate) fn after_snapshot(
    alloc: Global,
    asked: LogAsked,
    found: Option<Blob>,
) -> Result<LogPhase, Refusal>
    ensures goes { IfOk result (Goes (phases.Snapshot asked) (answers.Found found)) }
    ensures is_reader { IfOk result IsLogReader }
    ensures refuses { IfErr result (Shown (phases.Snapshot asked) (answers.Found found)) }
{
    match found {
        Some(bytes) => after_bytes(alloc, asked, bytes),
        None => Err(expired(asked)),
    }
}

/// The refusal of a snapshot whose file is absent.
fn expired(asked: LogAsked) -> Refusal
    ensures { result ≡ refusals.Expired asked.id }
{
    let id = asked.id();
    drop(asked);
    Refusal::Expired { id }
}

/// The phase once these bytes were found at the path of the snapshot.
fn after_bytes(alloc: Global, asked: LogAsked, bytes: Blob) -> Result<LogPhase, Refusal>
    ensures goes { IfOk result (Goes (phases.Snapshot asked) (answers.Found (Some bytes))) }
    ensures is_reader { IfOk result IsLogReader }
    ensures refuses { IfErr result (Shown (phases.Snapshot asked) (answers.Found (Some bytes))) }
{
    match read_named(alloc, asked.schema(), asked.id(), bytes.as_bytes()) {
        Ok(snapshot) => match open(alloc, asked, snapshot) {
            Ok(phase) => Ok(phase),
            Err(_) => Err(Refusal::Memory),
        },
        Err(refusal) => {
            drop(asked);
            Err(refusal)
        }
    }
}

/// The phase once the snapshot was read.
pub(crate) fn open(
    alloc: Global,
    asked: LogAsked,
    snapshot: Snapshot,
) -> Result<LogPhase, AllocError>
    ensures goes { IfOk result (Opens asked snapshot snapshot.changelog_list) }
    ensures is_reader { IfOk result IsLogReader }
{
    match &snapshot.changelog_list {
        Some(name) => match name.copy(alloc) {
            Ok(list) => Ok(LogPhase::List {
                asked,
                snapshot,
                list,
            }),
            Err(error) => {
                drop(asked);
                drop(snapshot);
                Err(error)
            }
        },
        None => Ok(ready(asked, snapshot, Vec::new(alloc), Vec::new(alloc))),
    }
}

/// The phase in which the changelog of a snapshot is ready.
fn ready(
    asked: LogAsked,
    snapshot: Snapshot,
    manifests: Vec<ManifestMeta>,
    changes: Vec<Entry>,
) -> LogPhase
    requires { HaveGroups asked.schema changes.items }
    ensures goes { GoesOn asked snapshot manifests.items [] changes.items result }
    ensures is_reader { IsLogReader result }
{
    LogPhase::Ready {
        log: Log {
            schema: asked.into_schema(),
            snapshot,
            manifests,
            changes,
        },
    }
}

/// The phase once this was found at the path of the changelog list.
pub(crate) fn after_list(
    alloc: Global,
    asked: LogAsked,
    snapshot: Snapshot,
    list: Txt,
    found: Option<Blob>,
) -> Result<LogPhase, Refusal>
    ensures goes { IfOk result (Goes (phases.List asked snapshot list) (answers.Found found)) }
    ensures is_reader { IfOk result IsLogReader }
    ensures refuses { IfErr result (Shown (phases.List asked snapshot list) (answers.Found found)) }
{
    let path = match manifest_path(alloc, &list) {
        Ok(path) => path,
        Err(_) => {
            drop(asked);
            drop(snapshot);
            drop(list);
            return Err(Refusal::Memory);
        }
    };
    drop(list);
    match found {
        Some(bytes) => match read_list(alloc, path.as_str(), bytes) {
            Ok(metas) => Ok(begin(alloc, asked, snapshot, metas)),
            Err(refusal) => {
                drop(asked);
                drop(snapshot);
                Err(refusal)
            }
        },
        None => {
            drop(snapshot);
            Ok(LogPhase::Again { asked, path })
        }
    }
}

/// The phase once the changelog list was read, which has these manifests.
fn begin(alloc: Global, asked: LogAsked, snapshot: Snapshot, metas: Vec<ManifestMeta>) -> LogPhase
    ensures goes { GoesOn asked snapshot [] metas.items [] result }
    ensures within { length metas.items ≤ most }
    ensures is_reader { IsLogReader result }
{
    go_on(
        asked,
        snapshot,
        Vec::new(alloc),
        VecDeque::from(metas),
        Vec::new(alloc),
    )
}

/// The phase with these manifests read and those left, and these entries of the first.
fn go_on(
    asked: LogAsked,
    snapshot: Snapshot,
    done: Vec<ManifestMeta>,
    left: VecDeque<ManifestMeta>,
    changes: Vec<Entry>,
) -> LogPhase
    requires { HaveGroups asked.schema changes.items }
    ensures goes { GoesOn asked snapshot done.items left.items changes.items result }
    ensures is_reader { IsLogReader result }
{
    let mut rest = left;
    match rest.pop_front() {
        Some(next) => LogPhase::Manifests {
            reading: LogReading {
                asked,
                snapshot,
                done,
                next,
                rest,
                changes,
            },
        },
        None => {
            drop(rest);
            ready(asked, snapshot, done, changes)
        }
    }
}

/// The phase once this was found at the path of the next manifest.
pub(crate) fn after_manifest(
    alloc: Global,
    reading: LogReading,
    found: Option<Blob>,
) -> Result<LogPhase, Refusal>
    ensures goes { IfOk result (Goes (phases.Manifests reading) (answers.Found found)) }
    ensures is_reader { IfOk result IsLogReader }
    ensures refuses { IfErr result (Shown (phases.Manifests reading) (answers.Found found)) }
{
    read_entry_law();
    folder_law();
    let Ok(path) = manifest_path(alloc, &reading.next.name) else {
        drop(reading);
        return Err(Refusal::Memory);
    };
    let Some(bytes) = found else {
        return Ok(again(reading, path));
    };
    match read_manifest(alloc, path.as_str(), reading.asked.schema(), bytes) {
        Ok(entries) => after_entries(reading, path, entries),
        Err(refusal) => {
            drop(reading);
            Err(refusal)
        }
    }
}

/// The phase in which the snapshot is to be read again, since the next manifest, which is at this path, is absent.
fn again(reading: LogReading, path: Txt) -> LogPhase
    ensures { result ≡ phases.Again reading.asked path }
{
    let LogReading {
        asked,
        snapshot,
        done,
        next,
        rest,
        changes,
    } = reading;
    drop(snapshot);
    drop(done);
    drop(next);
    drop(rest);
    drop(changes);
    LogPhase::Again { asked, path }
}

/// The phase once these entries of the next manifest, which is at this path, were read.
fn after_entries(reading: LogReading, path: Txt, entries: Vec<Entry>) -> Result<LogPhase, Refusal>
    requires { HaveGroups reading.asked.schema entries.items }
    ensures goes { IfOk result (TakesOwn reading entries.items) }
    ensures is_reader { IfOk result IsLogReader }
    ensures refuses { IfErr result (λ refusal. (refusal ≡ refusals.Memory)
        ⊎ ((AllByRecursion IsChangelogEntry entries.items → ⊥) × (refusal ≡ refusals.Damaged path 0))) }
{
    if are_changes(entries.as_slice()) {
        take_in(reading, entries)
    } else {
        drop(reading);
        drop(entries);
        Err(Refusal::Damaged { path, place: 0 })
    }
}

/// Whether each entry adds a file at level 0.
fn are_changes(entries: &[Entry]) -> bool
    ensures { IsTrue result ↔ AllByRecursion IsChangelogEntry entries.now }
{
    for entry in entries {
        if !is_change(entry) {
            return false;
        }
    }
    true
}

/// Whether the entry adds a file at level 0.
fn is_change(entry: &Entry) -> bool
    ensures { IsTrue result ↔ IsChangelogEntry entry.now }
{
    entry.add && entry.file.level == 0
}

/// The phase once these entries of the next manifest were read.
fn take_in(reading: LogReading, entries: Vec<Entry>) -> Result<LogPhase, Refusal>
    requires { HaveGroups reading.asked.schema entries.items }
    ensures goes { IfOk result (GoesOn reading.asked reading.snapshot (reading.done ++ reading.next ∷ []) reading.rest
        (reading.changes ++ entries.items)) }
    ensures is_reader { IfOk result IsLogReader }
    ensures memory { IfErr result (λ refusal. refusal ≡ refusals.Memory) }
{
    let LogReading {
        asked,
        snapshot,
        done,
        next,
        rest,
        changes,
    } = reading;
    let (mut done, mut changes) = (done, changes);
    match more(&mut done, next, &mut changes, entries) {
        Ok(()) => Ok(go_on(asked, snapshot, done, rest, changes)),
        Err(_) => {
            drop(asked);
            drop(snapshot);
            drop(done);
            drop(rest);
            drop(changes);
            Err(Refusal::Memory)
        }
    }
}

/// Puts a manifest to those that were read, and its entries to theirs.
fn more(
    done: &mut Vec<ManifestMeta>,
    next: ManifestMeta,
    changes: &mut Vec<Entry>,
    entries: Vec<Entry>,
) -> Result<(), AllocError>
    ensures done { OnOk result (done.new.items ≡ done.old.items ++ next ∷ []) }
    ensures changes { OnOk result (changes.new.items ≡ changes.old.items ++ entries.items) }
{
    let mut entries = entries;
    let appended = changes.append(&mut entries);
    drop(entries);
    match appended {
        Ok(()) => {
            done.push(next)?;
            Ok(())
        }
        Err(error) => {
            drop(next);
            Err(error)
        }
    }
}

/// The refusal once this was found at the path of the snapshot, after the file at a path that it names was absent.
pub(crate) fn after_again(asked: LogAsked, path: Txt, found: Option<Blob>) -> Refusal
    ensures { Shown (phases.Again asked path) (answers.Found found) result }
{
    match found {
        Some(_) => {
            drop(asked);
            Refusal::Damaged { path, place: 0 }
        }
        None => {
            drop(path);
            expired(asked)
        }
    }
}
