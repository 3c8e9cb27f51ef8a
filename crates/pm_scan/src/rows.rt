//! Which rows of a table a scan shows, and the files that have them.

ghost use Rattle.std.specs.Prelude.{◌≡◌, ◌≤◌, IfOk, IsSome, length, map};
ghost use Rattle.std.specs.BTreeMap.{get_by, IsOrdered};
ghost use Rattle.pm_values.specs.GroupOrder.{group_cmp};
ghost use Rattle.pm_values.specs.declared.group.Group.{Group as GroupView};
ghost use Rattle.pm_schema.specs.Folder.{FitsPartition};
ghost use Rattle.pm_levels.specs.Runs.{run_of};
ghost use Rattle.pm_group_files.specs.Jobs.{all_jobs};
ghost use Rattle.pm_read_table.specs.Reader.{most};
ghost use Rattle.pm_scan.specs.Rows.{from_first, groups_of, passed_groups, passes_at};

use pm_group_files::{Job, all_jobs, push_wanted};
use pm_levels::{Levels, RunFiles};
use pm_options::Producer;
use pm_schema::TableSchema;
use pm_values::Group;
use std::alloc::{AllocError, Global};
use std::collections::{BTreeMap, VecDeque};

/// All rows up to the snapshot, or those of them that are passed on there.
#[derive(Clone, Copy)]
pub enum Rows {
    All,
    Passed,
}

/// The files of all groups that have these rows.
pub(crate) fn jobs_of(
    alloc: Global,
    rows: Rows,
    schema: &TableSchema,
    groups: BTreeMap<Group, Levels>,
) -> Result<VecDeque<Job>, AllocError>
    requires { (g : GroupView) → IsSome (get_by (group_cmp g) groups) → FitsPartition schema.now g }
    ensures jobs { IfOk result (λ jobs. jobs.items
        ≡ all_jobs schema.now (groups_of rows schema.now groups.entries)) }
    ensures within { IfOk result (λ jobs. length jobs.items ≤ most) }
    ensures ordered { IsOrdered group_cmp groups }
{
    match rows {
        Rows::All => all_jobs(alloc, schema, groups),
        Rows::Passed => passed_jobs(alloc, schema, groups),
    }
}

/// The files of the runs whose rows are passed on.
fn passed_jobs(
    alloc: Global,
    schema: &TableSchema,
    groups: BTreeMap<Group, Levels>,
) -> Result<VecDeque<Job>, AllocError>
    requires { (g : GroupView) → IsSome (get_by (group_cmp g) groups) → FitsPartition schema.now g }
    ensures jobs { IfOk result (λ jobs. jobs.items
        ≡ all_jobs schema.now (passed_groups schema.now groups.entries)) }
    ensures within { IfOk result (λ jobs. length jobs.items ≤ most) }
    ensures ordered { IsOrdered group_cmp groups }
{
    let mut jobs = Vec::new(alloc);
    for (group, levels) in groups {
        let runs = passed_runs(schema, levels.runs());
        push_wanted(alloc, &mut jobs, schema, &group, runs, &[])?;
    }
    Ok(VecDeque::from(jobs))
}

/// The runs from the first one on whose rows are passed on.
fn passed_runs<'a>(schema: &TableSchema, runs: &'a [RunFiles]) -> &'a [RunFiles]
    ensures { map run_of result.now ≡ from_first (passes_at schema.now) (map run_of runs.now) }
{
    for (index, run) in runs.iter().enumerate() {
        if is_passed(schema, run.level) {
            return &runs[index..];
        }
    }
    &runs[runs.len()..]
}

/// Whether the rows of a run of this level are passed on.
fn is_passed(schema: &TableSchema, level: u32) -> bool
    ensures { result ≡ passes_at schema.now level }
{
    match schema.options.producer {
        Producer::Lookup => level > 0,
        Producer::FullCompaction => level == schema.options.levels.saturating_sub(1),
        Producer::None | Producer::Input => true,
    }
}
