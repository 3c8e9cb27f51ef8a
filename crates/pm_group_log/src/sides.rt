//! The runs of a group on each side of a level.

ghost use Rattle.std.specs.Prelude.{◌≡◌, ◌++◌, [], ◌∷◌, if◌then◌else◌, All, IfOk, OnOk, map, reverse};
ghost use Rattle.pm_engine.specs.Covers.{IsRising};
ghost use Rattle.pm_merge.specs.Merging.{HaveNoRefusal, rests_of, runs_in};
ghost use Rattle.pm_levels.specs.Runs.{run_of};
ghost use Rattle.pm_scan_rows.specs.Stored.{rest_of, run_left};
ghost use Rattle.pm_group_log.specs.Told.{is_side, rows_where};

use pm_levels::RunFiles;
use pm_scan_rows::{StoredRows, StoredRun};
use std::alloc::{AllocError, Global};

/// The rows of those of the runs whose level is below a first one, or of the others, the oldest run first: sources that
/// rise as the runs do, of which none refuses. The runs as they are known come with the newest first, and as they were
/// read with the oldest.
#[tactic(auto, using(crate::proofs::Sources::rests, crate::proofs::Sources::rise, crate::proofs::Sources::judged))]
pub(crate) fn side_of<'b>(
    alloc: Global,
    known: &[RunFiles],
    read: &'b [StoredRun],
    below: bool,
    first: u32,
) -> Result<Vec<StoredRows<'b>>, AllocError>
    requires { All IsRising read.now }
    ensures rests { IfOk result (λ sources. map rest_of sources.items
        ≡ rests_of (rows_where (is_side below first) (reverse (map run_of known.now)) read.now)) }
    ensures rising { IfOk result (λ sources. All IsRising (runs_in (map rest_of sources.items))) }
    ensures judged { IfOk result (λ sources. HaveNoRefusal (map rest_of sources.items)) }
{
    let sources = rows_of(alloc, known, read, below, first)?;
    Ok(sources)
}

/// The rows of the runs on a side.
fn rows_of<'b>(
    alloc: Global,
    known: &[RunFiles],
    read: &'b [StoredRun],
    below: bool,
    first: u32,
) -> Result<Vec<StoredRows<'b>>, AllocError>
    ensures { IfOk result (λ sources. map run_left sources.items
        ≡ rows_where (is_side below first) (reverse (map run_of known.now)) read.now) }
{
    let mut sources = Vec::new(alloc);
    let mut older = known;
    for own in read {
        let Some((oldest, newer)) = older.split_last() else {
            return Ok(sources);
        };
        put_side(&mut sources, oldest.level, own, below, first)?;
        older = newer;
    }
    Ok(sources)
}

/// Puts the rows of a run to those before them, where its level is on the side.
fn put_side<'b>(
    sources: &mut Vec<StoredRows<'b>>,
    level: u32,
    own: &'b StoredRun,
    below: bool,
    first: u32,
) -> Result<(), AllocError>
    ensures { OnOk result (map run_left sources.new.items ≡ map run_left sources.old.items
        ++ (if is_side below first level then own.now ∷ [] else [])) }
{
    if is_side(below, first, level) {
        sources.push(own.rows())?;
    }
    Ok(())
}

/// Whether a level is below a first one, or whether it isn't.
fn is_side(below: bool, first: u32, level: u32) -> bool
    ensures { result ≡ is_side below first level }
{
    if below {
        level < first
    } else {
        !(level < first)
    }
}
