//! Data files in the order in which they are read.

ghost use Rattle.std.specs.Prelude.{◌≡◌, ◌≤◌, ◌++◌, IfOk, OnOk, IsSome, length, map, if◌then◌else◌};
ghost use Rattle.std.specs.BTreeMap.{get_by, IsOrdered};
ghost use Rattle.pm_values.specs.GroupOrder.{group_cmp};
ghost use Rattle.pm_values.specs.declared.group.Group.{Group as GroupView};
ghost use Rattle.pm_schema.specs.Folder.{FitsPartition};
ghost use Rattle.pm_levels.specs.Runs.{run_of};
ghost use Rattle.pm_read_table.specs.Reader.{most};
ghost use Rattle.pm_group_files.specs.Jobs.{all_wanted, file_jobs_as, job_as, jobs_with, run_jobs_as};
ghost use Rattle.pm_group_files.specs.Jobs.{whole_groups};

use pm_base::Txt;
use pm_levels::{Levels, RunFiles};
use pm_model_contents::data_path;
use pm_schema::TableSchema;
use pm_values::{FileMeta, Group};
use std::alloc::{AllocError, Global};
use std::collections::{BTreeMap, VecDeque};

/// What ends with a file: itself alone, or its run, or with that its group.
#[derive(Clone, Copy)]
pub enum Ends {
    File,
    Run,
    Group,
}

/// A data file that is to be read: its path, the id of the schema that it was written with, what ends with it, and
/// whether its bytes are kept as they are and its rows not read.
#[derive(Drop)]
pub struct Job {
    pub(crate) path: Txt,
    pub(crate) schema_id: u64,
    pub(crate) ends: Ends,
    pub(crate) kept: bool,
}

/// The files of all groups.
pub fn all_jobs(
    alloc: Global,
    schema: &TableSchema,
    groups: BTreeMap<Group, Levels>,
) -> Result<VecDeque<Job>, AllocError>
    requires { (g : GroupView) → IsSome (get_by (group_cmp g) groups) → FitsPartition schema.now g }
    ensures jobs { IfOk result (λ jobs. jobs.items ≡ all_wanted schema.now (whole_groups groups.entries)) }
    ensures within { IfOk result (λ jobs. length jobs.items ≤ most) }
    ensures ordered { IsOrdered group_cmp groups }
{
    let mut jobs = Vec::new(alloc);
    for (group, levels) in groups {
        let runs = levels.runs();
        push_runs(alloc, &mut jobs, schema, &group, Ends::Group, false, runs)?;
    }
    Ok(VecDeque::from(jobs))
}

/// Adds the files of what is wanted of a group: of runs that are read, and after them those of older runs, whose bytes
/// are kept as they are.
pub fn push_wanted(
    alloc: Global,
    jobs: &mut Vec<Job>,
    schema: &TableSchema,
    group: &Group,
    runs: &[RunFiles],
    kept: &[RunFiles],
) -> Result<(), AllocError>
    requires { FitsPartition schema.now group.now }
    ensures { OnOk result (jobs.new.items
        ≡ jobs.old.items ++ jobs_with schema.now group.now (map run_of runs.now) (map run_of kept.now)) }
{
    if kept.is_empty() {
        return push_runs(alloc, jobs, schema, group, Ends::Group, false, runs);
    }
    push_runs(alloc, jobs, schema, group, Ends::Run, false, runs)?;
    push_runs(alloc, jobs, schema, group, Ends::Group, true, kept)
}

/// Adds the files of runs of a group, with the last of which this ends.
fn push_runs(
    alloc: Global,
    jobs: &mut Vec<Job>,
    schema: &TableSchema,
    group: &Group,
    ends: Ends,
    kept: bool,
    runs: &[RunFiles],
) -> Result<(), AllocError>
    requires { FitsPartition schema.now group.now }
    ensures { OnOk result (jobs.new.items
        ≡ jobs.old.items ++ run_jobs_as kept schema.now group.now ends (map run_of runs.now)) }
{
    for (index, run) in runs.iter().enumerate() {
        let own = ends_where(index + 1 == runs.len(), ends, Ends::Run);
        push_files(alloc, jobs, schema, group, own, kept, run.files.as_slice())?;
    }
    Ok(())
}

/// Adds the files of a run, with the last of which this ends.
fn push_files(
    alloc: Global,
    jobs: &mut Vec<Job>,
    schema: &TableSchema,
    group: &Group,
    ends: Ends,
    kept: bool,
    files: &[FileMeta],
) -> Result<(), AllocError>
    requires { FitsPartition schema.now group.now }
    ensures { OnOk result (jobs.new.items
        ≡ jobs.old.items ++ file_jobs_as kept schema.now group.now ends files.now) }
{
    for (index, file) in files.iter().enumerate() {
        let own = ends_where(index + 1 == files.len(), ends, Ends::File);
        jobs.push(job_of(alloc, schema, group, own, kept, file)?)?;
    }
    Ok(())
}

/// What ends with a file, which is the last of some or not.
fn ends_where(is_last: bool, last: Ends, other: Ends) -> Ends
    ensures { result ≡ (if is_last then last else other) }
{
    if is_last { last } else { other }
}

/// A file of a group, with which this ends.
fn job_of(
    alloc: Global,
    schema: &TableSchema,
    group: &Group,
    ends: Ends,
    kept: bool,
    file: &FileMeta,
) -> Result<Job, AllocError>
    requires { FitsPartition schema.now group.now }
    ensures { IfOk result (λ job. job ≡ job_as kept schema.now group.now ends file.now) }
{
    Ok(Job {
        path: data_path(alloc, schema, group, &file.name)?,
        schema_id: file.schema_id,
        ends,
        kept,
    })
}
