//! The files that the groups of a batch become.

ghost use Rattle.std.specs.Prelude.{◌≡◌, ◌≢◌, ◌+◌, ◌<◌, ◌≤◌, ◌^◌, [], false, length, map, All, IfOk, IfErr, OnOk};
ghost use Rattle.pm_values.specs.Names.{counted, name_of};
ghost use Rattle.pm_values.specs.declared.refusal.Refusal.TheVariants.{Memory};
ghost use Rattle.pm_run.specs.Row.{most_sequence};
ghost use Rattle.pm_write.specs.Batch.{logs_in, numbered};
ghost use Rattle.pm_write.specs.Files.{next_of, next_run, exceeds, no_sequence, AreFilesOfLogs, AreFilesOfRuns};
ghost use Rattle.pm_write.specs.Files.{AreNewFiles, IsNewChanges, IsNewFile};
ghost use Rattle.pm_write.specs.Held.{all_groups, group_rows, IsHeld};

use crate::held::HeldRows;
use crate::numbered::write_numbered;
use pm_changelog::write_log;
use pm_run::RunFile;
use pm_schema::TableSchema;
use pm_values::{Blob, FileMeta, Group, Names, Refusal, Txt};
use std::alloc::{AllocError, Global};
use std::collections::BTreeMap;

/// The greatest sequence number.
const MOST_SEQUENCE: u64 = 4_611_686_018_427_387_903;

/// A file that isn't in the store yet.
#[derive(Drop)]
pub struct NewFile {
    /// The group of its rows.
    pub group: Group,
    pub meta: FileMeta,
    /// Whether it is a changelog file.
    pub changelog: bool,
    pub bytes: Blob,
}

/// The number from which a group's next rows are counted.
fn next_of(next: &BTreeMap<Group, u64>, group: &Group) -> u64
    ensures { result ≡ next_of next.now group.now }
{
    next.get(group).copied().unwrap_or(0)
}

/// Whether a group's rows, counted from its next number, need one above the greatest.
pub(crate) fn exceeds(groups: &[HeldRows], next: &BTreeMap<Group, u64>) -> bool
    ensures { result ≡ exceeds next.now (all_groups groups.now) }
{
    for held in groups {
        if next_of(next, &held.group).saturating_add(held.count) > MOST_SEQUENCE + 1 {
            return true;
        }
    }
    false
}

/// The refusal of rows that need such a number.
pub(crate) fn no_sequence(alloc: Global) -> Result<Refusal, AllocError>
    ensures { IfOk result (λ e. e ≡ no_sequence) }
{
    Ok(Refusal::Limit {
        which: Txt::from_str(alloc, "sequence")?,
        number: MOST_SEQUENCE,
    })
}

/// The files of groups, in their order, whose rows are counted from the groups' next numbers: the data files, and
/// behind them the changelog files.
pub(crate) fn write_files(
    alloc: Global,
    schema: &TableSchema,
    groups: &[HeldRows],
    next: &BTreeMap<Group, u64>,
    names: &mut Names,
) -> Result<Vec<NewFile>, Refusal>
    requires held { All IsHeld groups.now }
    requires within { exceeds next.now (all_groups groups.now) ≡ false }
    requires count { names.old.count + (length groups.now + length (logs_in (all_groups groups.now))) ≤ 2 ^ 62 }
    ensures files { IfOk result (λ files.
        AreNewFiles schema.now next.now names.old (all_groups groups.now) files.items) }
    ensures names { names.new ≡ record names.old { count = names.new.count } }
    ensures counted { names.old.count ≤ names.new.count }
    ensures taken { IfOk result (λ files. names.new.count ≡ names.old.count + length files.items) }
    ensures memory { IfErr result (λ e. e ≡ Memory) }
{
    let mut files = write_groups(alloc, schema, groups, next, names)?;
    let mut changes = write_logs(alloc, schema, groups, names)?;
    files.append(&mut changes)?;
    Ok(files)
}

/// The data files of groups, in their order, whose rows are counted from the groups' next numbers.
fn write_groups(
    alloc: Global,
    schema: &TableSchema,
    groups: &[HeldRows],
    next: &BTreeMap<Group, u64>,
    names: &mut Names,
) -> Result<Vec<NewFile>, Refusal>
    requires held { All IsHeld groups.now }
    requires within { exceeds next.now (all_groups groups.now) ≡ false }
    requires count { names.old.count + length groups.now ≤ 2 ^ 62 }
    ensures files { IfOk result (λ files.
        AreFilesOfRuns schema.now names.old (map (next_run next.now) (all_groups groups.now)) files.items) }
    ensures names { names.new ≡ record names.old { count = names.new.count } }
    ensures counted { names.old.count ≤ names.new.count }
    ensures taken { IfOk result (λ files. names.new.count ≡ names.old.count + length files.items) }
    ensures memory { IfErr result (λ e. e ≡ Memory) }
{
    let mut files = Vec::with_capacity(alloc, groups.len())?;
    for held in groups {
        let first = next_of(next, &held.group);
        files.push(write_group(alloc, schema, held, first, names)?)?;
    }
    Ok(files)
}

/// The data file of a group, whose rows are counted from this number.
fn write_group(
    alloc: Global,
    schema: &TableSchema,
    held: &HeldRows,
    first: u64,
    names: &mut Names,
) -> Result<NewFile, Refusal>
    requires held { IsHeld held.now }
    requires within { first + held.now.count ≤ most_sequence + 1 }
    requires count { names.old.count < 2 ^ 62 }
    ensures file { IfOk result (IsNewFile schema.now names.old held.now.group
        (numbered first (group_rows held.now).1.run)) }
    ensures names { names.new ≡ record names.old { count = names.new.count } }
    ensures counted { names.old.count ≤ names.new.count }
    ensures taken { OnOk result (names.new ≡ counted names.old) }
    ensures memory { IfErr result (λ e. e ≡ Memory) }
{
    let group = held.group.copy(alloc)?;
    let RunFile { meta, bytes } = write_numbered(alloc, schema, &held.run, first, names)?;
    Ok(NewFile {
        group,
        meta,
        changelog: false,
        bytes,
    })
}

/// The changelog files of groups, in their order: one of each whose log tells something.
fn write_logs(
    alloc: Global,
    schema: &TableSchema,
    groups: &[HeldRows],
    names: &mut Names,
) -> Result<Vec<NewFile>, AllocError>
    requires count { names.old.count + length (logs_in (all_groups groups.now)) ≤ 2 ^ 62 }
    ensures files { IfOk result (λ files.
        AreFilesOfLogs schema.now names.old (logs_in (all_groups groups.now)) files.items) }
    ensures names { names.new ≡ record names.old { count = names.new.count } }
    ensures counted { names.old.count ≤ names.new.count }
    ensures taken { IfOk result (λ files. names.new.count ≡ names.old.count + length files.items) }
{
    let mut files = Vec::new(alloc);
    for held in groups {
        if !held.log.is_empty() {
            files.push(write_changes(alloc, schema, held, names)?)?;
        }
    }
    Ok(files)
}

/// The changelog file of a group whose log tells something.
fn write_changes(
    alloc: Global,
    schema: &TableSchema,
    held: &HeldRows,
    names: &mut Names,
) -> Result<NewFile, AllocError>
    requires tells { held.now.log ≢ [] }
    requires count { names.old.count < 2 ^ 62 }
    ensures file { IfOk result (IsNewChanges schema.now names.old held.now.group held.now.log) }
    ensures names { names.new ≡ record names.old { count = names.new.count } }
    ensures counted { names.old.count ≤ names.new.count }
    ensures taken { OnOk result (names.new ≡ counted names.old) }
{
    let group = held.group.copy(alloc)?;
    match write_log(alloc, schema, &held.log, names)? {
        Some(RunFile { meta, bytes }) => Ok(NewFile {
            group,
            meta,
            changelog: true,
            bytes,
        }),
        None => Err(AllocError),
    }
}
