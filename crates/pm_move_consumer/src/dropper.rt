//! The dropper of a consumer.

ghost use Rattle.std.specs.Prelude.{◌≡◌, ◌<◌, IfOk, OnErr, OnOk};
ghost use Rattle.pm_model_folder.specs.Changes.{Actor, IsPlain};
ghost use Rattle.pm_model_folder.specs.Paths.{consumer_path};
ghost use Rattle.pm_machine.specs.Trace.{HasTrace};
ghost use Rattle.pm_store.specs.Store.{IsLater};
ghost use Rattle.pm_move_consumer.specs.Dropper.{calls_left, IsDone};
ghost use Rattle.pm_move_consumer.specs.DropperAllCalls.{DidDrop, DropsNames, DropsOn};
ghost use Rattle.pm_move_consumer.specs.DropperMeaning.{drop_by, DropperMoved};
ghost use Rattle.pm_move_consumer.specs.DropperTrace.{DropperActed};
ghost use Rattle.pm_move_consumer.specs.declared.drop_phase.DropPhase.TheVariants as phases;

use crate::drop_phase::DropPhase;
use crate::laws::drops_law;
use pm_base::Txt;
use pm_consumer_files::consumer_path;
use pm_machine::{Running, make_step};
use pm_model_folder::steps_law;
use pm_store::FileStore;
use pm_values::Refusal;
use std::alloc::{AllocError, Global};

/// Removes a consumer's file: one call of the store.
pub type Dropper = Running<DropPhase>;

/// The dropper of the consumer of a name.
pub fn dropper_of(alloc: Global, name: &Txt) -> Result<Dropper, AllocError>
    ensures { IfOk result (λ dropper. dropper ≡ phases.Remove (consumer_path name.now)) }
{
    let path = consumer_path(alloc, name)?;
    Ok(Running::new(DropPhase::Remove { path }))
}

/// Makes its call of the store, after which none is left.
pub fn step_dropper<F: FileStore>(
    alloc: Global,
    dropper: &mut Dropper,
    store: &mut F,
) -> Result<(), Refusal>
    requires { 0 < calls_left dropper.old }
    ensures moves { DropperMoved dropper.old dropper.new (F.seen store.old) (F.seen store.new) }
    ensures acts { DropperActed dropper.old dropper.new (F.seen store.old) (F.seen store.new) result }
    ensures dropped { OnOk result (IsDone dropper.new) }
    ensures over { OnErr result (dropper.new ≡ phases.Over) }
    ensures later { IsLater (F.seen store.old) (F.seen store.new) }
{
    steps_law();
    make_step(alloc, dropper, store)
}

/// Whether a file was there, once that is told.
pub fn into_told(dropper: Dropper) -> bool
    requires { IsDone dropper }
    ensures { dropper ≡ phases.Dropped result }
{
    match dropper.into_phase() {
        DropPhase::Dropped { was_there } => was_there,
        _ => unreachable!(),
    }
}

/// Drops the consumer of a name: one remove of its file. Answers whether one was there. Refuses with `StoreFault`, or,
/// before the call, out of memory.
pub fn drop_consumer<F: FileStore>(
    alloc: Global,
    name: &Txt,
    store: &mut F,
) -> Result<bool, Refusal>
    requires { IsPlain name.now }
    ensures trace { HasTrace (DidDrop name.now result) (F.seen store.old) (F.seen store.new) }
    ensures alone { DropsNames name.now (F.seen store.old) (F.seen store.new) result }
    ensures beside { (me : Actor) → DropsOn (drop_by me name.now) result (F.seen store.old) (F.seen store.new) }
    ensures later { IsLater (F.seen store.old) (F.seen store.new) }
{
    drops_law();
    let mut dropper = match dropper_of(alloc, name) {
        Ok(dropper) => dropper,
        Err(_) => return Err(Refusal::Memory),
    };
    match step_dropper(alloc, &mut dropper, store) {
        Ok(()) => Ok(into_told(dropper)),
        Err(refusal) => {
            drop(dropper);
            Err(refusal)
        }
    }
}
