//! A run without the rows that have no effect.

ghost use Rattle.std.specs.Prelude.{◌≡◌, ◌∷◌, [], ◌++◌, IfOk, OnOk};
ghost use Rattle.pm_merge.specs.Merge.{without_droppable};

use pm_engine::{MergeEngine, Stored};
use pm_values::Stamped;
use std::alloc::{AllocError, Global};

/// The run without its droppable rows.
pub(crate) fn without_droppable<E: MergeEngine>(
    alloc: Global,
    engine: &E,
    run: Vec<Stamped>,
) -> Result<Vec<Stamped>, AllocError>
    ensures { IfOk result (λ new. new.items ≡ without_droppable (E.meaning engine.now) run.items) }
{
    let mut kept = Vec::with_capacity(alloc, run.len())?;
    for row in run {
        keep(engine, &mut kept, row)?;
    }
    Ok(kept)
}

/// Takes one stored row more, unless it is droppable.
fn keep<E: MergeEngine>(
    engine: &E,
    kept: &mut Vec<Stamped>,
    stamped: Stamped,
) -> Result<(), AllocError>
    ensures { OnOk result
        (kept.new.items ≡ kept.old.items ++ without_droppable (E.meaning engine.now) (stamped ∷ [])) }
{
    let Stamped {
        key,
        seq,
        kind,
        row,
    } = stamped;
    let stored = Stored { kind, row };
    let drops = engine.droppable(&stored);
    if drops {
        return Ok(());
    }
    kept.push(Stamped {
        key,
        seq,
        kind: stored.kind,
        row: stored.row,
    })?;
    Ok(())
}
