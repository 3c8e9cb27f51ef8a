//! The entries of the files that a compaction takes away.

ghost use Rattle.std.specs.Prelude.{◌≡◌, ◌++◌, map, IfOk, OnOk};
ghost use Rattle.pm_levels.specs.Runs.{run_of};
ghost use Rattle.pm_choice.specs.Choice.{live_entry, removed_entries, run_entries, taken_runs};

use crate::choice::ChosenGroup;
use pm_levels::RunFiles;
use pm_manifest::Entry;
use pm_schema::TableSchema;
use pm_values::{FileMeta, Group};
use std::alloc::{AllocError, Global};

/// The entries of the files of the runs that go: by group, and in each newest run first.
pub fn removed_in(
    alloc: Global,
    schema: &TableSchema,
    chosen: &[ChosenGroup],
) -> Result<Vec<Entry>, AllocError>
    ensures { IfOk result (λ removed. removed.items ≡ removed_entries schema.now chosen.now) }
{
    let mut removed = Vec::new(alloc);
    for one in chosen {
        push_runs(alloc, &mut removed, schema, &one.group, one.taken())?;
    }
    Ok(removed)
}

/// Adds the entries of the files of runs.
fn push_runs(
    alloc: Global,
    removed: &mut Vec<Entry>,
    schema: &TableSchema,
    group: &Group,
    runs: &[RunFiles],
) -> Result<(), AllocError>
    ensures { OnOk result (removed.new.items
        ≡ removed.old.items ++ run_entries schema.now group.now (map run_of runs.now)) }
{
    for run in runs {
        push_files(alloc, removed, schema, group, run.files.as_slice())?;
    }
    Ok(())
}

/// Adds the entries of files.
fn push_files(
    alloc: Global,
    removed: &mut Vec<Entry>,
    schema: &TableSchema,
    group: &Group,
    files: &[FileMeta],
) -> Result<(), AllocError>
    ensures { OnOk result (removed.new.items
        ≡ removed.old.items ++ map (live_entry schema.now group.now) files.now) }
{
    for file in files {
        removed.push(live_entry(alloc, schema, group, file)?)?;
    }
    Ok(())
}

/// The entry of a live file of the table.
fn live_entry(
    alloc: Global,
    schema: &TableSchema,
    group: &Group,
    file: &FileMeta,
) -> Result<Entry, AllocError>
    ensures { IfOk result (λ e. e ≡ live_entry schema.now group.now file.now) }
{
    Ok(Entry {
        add: true,
        group: group.copy(alloc)?,
        buckets: schema.options.bucket,
        file: file.copy(alloc)?,
    })
}
