//! The files that a compaction reads.

ghost use Rattle.std.specs.Prelude.{◌≡◌, ◌≤◌, length, IfOk};
ghost use Rattle.pm_read_table.specs.Reader.{most};
ghost use Rattle.pm_group_files.specs.Jobs.{all_wanted};
ghost use Rattle.pm_plan.specs.Planned.{FitChosen};
ghost use Rattle.pm_compactor.specs.Compactor.{wanted_groups};

use pm_choice::ChosenGroup;
use pm_group_files::{Job, push_wanted};
use pm_schema::TableSchema;
use std::alloc::{AllocError, Global};
use std::collections::VecDeque;

/// The files of the runs that go of these groups, and of those in which old values are looked up: by group, and in each
/// newest run first.
pub(crate) fn wanted_jobs(
    alloc: Global,
    schema: &TableSchema,
    chosen: &VecDeque<ChosenGroup>,
) -> Result<VecDeque<Job>, AllocError>
    requires { FitChosen schema.now chosen.now.items }
    ensures jobs { IfOk result (λ jobs.
        jobs.items ≡ all_wanted schema.now (wanted_groups schema.now chosen.now.items)) }
    ensures within { IfOk result (λ jobs. length jobs.items ≤ most) }
{
    let mut jobs = Vec::new(alloc);
    for one in chosen {
        let kept = one.looked(schema);
        push_wanted(alloc, &mut jobs, schema, &one.group, one.taken(), kept)?;
    }
    Ok(VecDeque::from(jobs))
}
