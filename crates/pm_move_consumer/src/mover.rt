//! The mover of a consumer.

ghost use Rattle.std.specs.Prelude.{◌≡◌, ◌<◌, ◌≤◌, IfOk, List, OnErr, OnOk, ℕ};
ghost use Rattle.pm_model_folder.specs.Changes.{Actor};
ghost use Rattle.pm_machine.specs.Trace.{HasTrace};
ghost use Rattle.pm_snapshot.specs.Names.{greatest};
ghost use Rattle.pm_store.specs.Store.{IsLater};
ghost use Rattle.pm_move_consumer.specs.Mover.{calls_left, moving_of, new_mover, IsDone, IsMoving};
ghost use Rattle.pm_move_consumer.specs.MoverAllCalls.{DidMove, MovesNames, MovesOn};
ghost use Rattle.pm_move_consumer.specs.MoverMeaning.{move_by, MoverMoved};
ghost use Rattle.pm_move_consumer.specs.MoverTrace.{MoverActed};
ghost use Rattle.pm_move_consumer.specs.declared.move_phase.MovePhase.TheVariants as phases;

use crate::laws::moves_law;
use crate::move_phase::MovePhase;
use pm_base::{Blob, Txt};
use pm_consumer_files::consumer_path;
use pm_machine::{Running, make_step};
use pm_model_folder::steps_law;
use pm_snapshot::{Consumer, consumer_law, write_consumer};
use pm_store::FileStore;
use pm_values::Refusal;
use std::alloc::{AllocError, Global};

/// Moves a consumer past a snapshot: one call of the store.
pub type Mover = Running<MovePhase>;

/// The mover of the consumer of a name past this snapshot, where its file has these bytes.
pub fn mover_of(alloc: Global, name: &Txt, expected: Blob, next: u64) -> Result<Mover, AllocError>
    requires { next ≤ greatest }
    ensures { IfOk result (λ mover. mover ≡ new_mover (moving_of name.now expected next)) }
{
    let path = consumer_path(alloc, name)?;
    let known = Consumer {
        next: next + 1,
        fresh: false,
    };
    let bytes = Blob::new(write_consumer(alloc, &known)?);
    Ok(Running::new(MovePhase::Swap {
        path,
        expected,
        bytes,
    }))
}

/// Makes its call of the store, after which none is left.
pub fn step_mover<F: FileStore>(
    alloc: Global,
    mover: &mut Mover,
    store: &mut F,
) -> Result<(), Refusal>
    requires { 0 < calls_left mover.old }
    ensures moves { MoverMoved mover.old mover.new (F.seen store.old) (F.seen store.new) }
    ensures acts { MoverActed mover.old mover.new (F.seen store.old) (F.seen store.new) result }
    ensures moved { OnOk result (IsDone mover.new) }
    ensures over { OnErr result (mover.new ≡ phases.Over) }
    ensures later { IsLater (F.seen store.old) (F.seen store.new) }
{
    steps_law();
    consumer_law();
    make_step(alloc, mover, store)
}

/// The bytes of the consumer's file, once it is moved.
pub fn into_moved(mover: Mover) -> Blob
    requires { IsDone mover }
    ensures { mover ≡ phases.Moved result }
{
    match mover.into_phase() {
        MovePhase::Moved { bytes } => bytes,
        _ => unreachable!(),
    }
}

/// Moves the consumer of a name past the snapshot that it reads next, whose frame was printed: one swap of its file,
/// from the bytes that were read or written there last to those of the next number, which are the answer. Refuses with
/// `ConsumerMoved` where the file was another; `StoreFault`; or, before the call, out of memory.
pub fn move_consumer<F: FileStore>(
    alloc: Global,
    name: &Txt,
    expected: Blob,
    next: u64,
    store: &mut F,
) -> Result<Blob, Refusal>
    requires { IsMoving (moving_of name.now expected next) }
    ensures trace { HasTrace (DidMove (moving_of name.now expected next) result) (F.seen store.old)
        (F.seen store.new) }
    ensures alone { MovesNames (moving_of name.now expected next) (F.seen store.old) (F.seen store.new) result }
    ensures beside { (me : Actor) (text : List ℕ) → MovesOn (move_by me (moving_of name.now expected next) text) result
        (F.seen store.old) (F.seen store.new) }
    ensures later { IsLater (F.seen store.old) (F.seen store.new) }
{
    moves_law();
    let mut mover = match mover_of(alloc, name, expected, next) {
        Ok(mover) => mover,
        Err(_) => return Err(Refusal::Memory),
    };
    match step_mover(alloc, &mut mover, store) {
        Ok(()) => Ok(into_moved(mover)),
        Err(refusal) => {
            drop(mover);
            Err(refusal)
        }
    }
}
