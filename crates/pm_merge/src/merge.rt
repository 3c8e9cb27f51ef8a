//! Several runs made into one.

ghost use Rattle.std.specs.Prelude.{◌≡◌, All, IfErr, IfOk, true, false, map};
ghost use Rattle.pm_engine.specs.Covers.{Run, IsRising};
ghost use Rattle.pm_merge.specs.Merge.{runs_of, IsMerge, without_droppable};
ghost use Rattle.pm_merge.specs.Merging.{rests_of};
ghost use Rattle.pm_merge.specs.Source.{rest_in_memory};
ghost use Rattle.pm_values.specs.declared.refusal.Refusal.TheVariants.{Memory};

use crate::drops::without_droppable;
use crate::laws::given_law;
use crate::merging::Merging;
use crate::source::MemRows;
use pm_engine::MergeEngine;
use pm_row_slots::RowSlot;
use pm_values::{Refusal, Stamped};
use std::alloc::{AllocError, Global};

/// One run of several, the oldest first, which may stand in their place (`replaces_law`). With `drop` it lacks the
/// droppable rows, which is right where no older run is left (`oldest_law`).
pub fn merge_runs<E: MergeEngine>(
    alloc: Global,
    engine: &E,
    older_first: Vec<Vec<Stamped>>,
    drop: bool,
) -> Result<Vec<Stamped>, AllocError>
    requires { All IsRising (runs_of older_first.items) }
    ensures keeps { IfOk result (λ run. drop ≡ false →
        IsMerge (E.meaning engine.now) (runs_of older_first.items) run.items) }
    ensures drops { IfOk result (λ run. drop ≡ true → (merged : Run)
        × IsMerge (E.meaning engine.now) (runs_of older_first.items) merged
        × (run.items ≡ without_droppable (E.meaning engine.now) merged)) }
{
    let Ok(merged) = merged(alloc, engine, older_first) else {
        return Err(AllocError);
    };
    if drop {
        without_droppable(alloc, engine, merged)
    } else {
        Ok(merged)
    }
}

/// One run of several, in time and memory about linear in their rows. The only refusal is that memory ran out.
fn merged<E: MergeEngine>(
    alloc: Global,
    engine: &E,
    older_first: Vec<Vec<Stamped>>,
) -> Result<Vec<Stamped>, Refusal>
    requires { All IsRising (runs_of older_first.items) }
    ensures merged { IfOk result (λ run. IsMerge (E.meaning engine.now) (runs_of older_first.items) run.items) }
    ensures memory { IfErr result (λ e. e ≡ Memory) }
{
    given_law();
    let mut run = Vec::with_capacity(alloc, most_rows(&older_first))?;
    let mut merging = Merging::of(alloc, sources_of(alloc, older_first)?)?;
    let mut slot = Box::new(alloc, RowSlot::new(alloc))?;
    loop {
        merging.fill(alloc, engine, &mut slot)?;
        match slot.take(alloc)? {
            Some(row) => run.push(row)?,
            None => return Ok(run),
        }
    }
}

/// The rows of each of the runs.
fn sources_of(alloc: Global, runs: Vec<Vec<Stamped>>) -> Result<Vec<MemRows>, AllocError>
    ensures { IfOk result (λ sources. map rest_in_memory sources.items ≡ rests_of (runs_of runs.items)) }
{
    let mut sources = Vec::with_capacity(alloc, runs.len())?;
    for run in runs {
        sources.push(MemRows {
            rows: run.into_iter(),
        })?;
    }
    Ok(sources)
}

/// How many rows the runs have, which is how many their run has at most.
fn most_rows(runs: &[Vec<Stamped>]) -> usize {
    let mut most: usize = 0;
    for run in runs {
        most = most.saturating_add(run.len());
    }
    most
}
