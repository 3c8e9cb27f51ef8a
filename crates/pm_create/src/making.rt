//! All calls of a creator, one after another.

ghost use Rattle.std.specs.Prelude.{◌≡◌};
ghost use Rattle.pm_create.specs.Creator.{calls_left, IsCreator};
ghost use Rattle.pm_create.specs.Making.{DidMake, MakesTables};
ghost use Rattle.pm_machine.specs.Trace.{HasTrace};
ghost use Rattle.pm_store.specs.Store.{IsLater};

use crate::creator::Creator;
use pm_model_folder::kept_law;
use pm_store::FileStore;
use pm_values::Refusal;
use std::alloc::Global;

/// Makes the table of a creator that has made no call yet: all its calls, one after another.
pub fn create_table<F: FileStore>(
    alloc: Global,
    creator: Creator,
    store: &mut F,
) -> Result<(), Refusal>
    requires { calls_left creator.phase ≡ 2 }
    ensures trace { HasTrace (DidMake creator.table result) (F.seen store.old) (F.seen store.new) }
    ensures history { MakesTables creator.table (F.seen store.old) (F.seen store.new) result }
    ensures later { IsLater (F.seen store.old) (F.seen store.new) }
{
    kept_law();
    let mut creator = creator;
    make_calls(alloc, &mut creator, store)
}

/// Makes both calls, or those up to a refusal.
fn make_calls<F: FileStore>(
    alloc: Global,
    creator: &mut Creator,
    store: &mut F,
) -> Result<(), Refusal>
    requires is_creator { IsCreator creator.old.table creator.old.phase }
    requires is_new { calls_left creator.old.phase ≡ 2 }
    ensures is_creator { IsCreator creator.old.table creator.old.phase }
    ensures trace { HasTrace (DidMake creator.old.table result) (F.seen store.old) (F.seen store.new) }
    ensures later { IsLater (F.seen store.old) (F.seen store.new) }
{
    match creator.step(alloc, store) {
        Ok(_) => {}
        Err(refusal) => return Err(refusal),
    }
    match creator.step(alloc, store) {
        Ok(_) => Ok(()),
        Err(refusal) => Err(refusal),
    }
}
