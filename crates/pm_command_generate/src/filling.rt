//! The batches, with the compactions between them.

ghost use Rattle.std.specs.Prelude.{◌+◌, ◌*◌, ◌<◌, ◌≤◌, ◌^◌, List, ◌++◌, OnOk};
ghost use Rattle.std.specs.Result.{result_err};
ghost use Rattle.pm_store.specs.Store.{IsLater};
ghost use Rattle.pm_command_generate.specs.Generate.{batches_after, compactions_after, Asked, Goes};

use crate::drawing::Drawing;
use crate::steps::{compact, write};
use crate::turn::Turn;
use pm_command::Start;
use pm_draws::Draws;
use pm_store::FileStore;
use pm_values::Refusal;
use std::alloc::Global;

/// How many batches stand between two compactions.
const BATCHES_BETWEEN: u64 = 5;

/// Commits all batches, and compacts behind each fifth.
pub(crate) fn fill<F: FileStore>(
    alloc: Global,
    drawing: &Drawing,
    turn: &mut Turn,
    store: &mut F,
    start: &Start,
) -> Result<(), Refusal>
    requires few { turn.old.number + 2 * drawing.now.batches < 2 ^ 32 }
    ensures goes { (left : List Asked) → Goes start.now
        (batches_after drawing.now.rows drawing.now.seed 0 drawing.now.batches ++ left) left turn.old turn.new
        (F.seen store.old) (F.seen store.new) (result_err result) }
    ensures next { OnOk result (turn.new.number ≤ turn.old.number + 2 * drawing.now.batches) }
    ensures later { IsLater (F.seen store.old) (F.seen store.new) }
{
    let mut draws = Draws::of(drawing.seed);
    for done in 0..drawing.batches {
        let lines = draws.batch(alloc, drawing.rows)?;
        write(alloc, lines, turn, store, start)?;
        compact_after(alloc, done + 1, turn, store, start)?;
    }
    Ok(())
}

/// Compacts where so many batches stand.
fn compact_after<F: FileStore>(
    alloc: Global,
    count: u64,
    turn: &mut Turn,
    store: &mut F,
    start: &Start,
) -> Result<(), Refusal>
    requires few { turn.old.number + 1 < 2 ^ 32 }
    ensures goes { (left : List Asked) → Goes start.now (compactions_after count ++ left) left turn.old turn.new
        (F.seen store.old) (F.seen store.new) (result_err result) }
    ensures next { OnOk result (turn.new.number ≤ turn.old.number + 1) }
    ensures later { IsLater (F.seen store.old) (F.seen store.new) }
{
    if count % BATCHES_BETWEEN == 0 {
        compact(alloc, turn, store, start)
    } else {
        Ok(())
    }
}
