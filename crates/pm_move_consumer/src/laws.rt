//! Laws of movers and droppers. Each holds with no call but of laws of crates below.

ghost use Rattle.std.specs.Prelude.{◌≡◌, Bool, List, ℕ, Result, Some};
ghost use Rattle.pm_machine.specs.Trace.{Event, HasTrace};
ghost use Rattle.pm_model_folder.specs.Changes.{Actor, IsPlain};
ghost use Rattle.pm_model_folder.specs.Ledger.{Advances, Past, Stands};
ghost use Rattle.pm_store.specs.declared.call.Call.{Call};
ghost use Rattle.pm_store.specs.Files.{Files};
ghost use Rattle.pm_store.specs.Images.{MayLeave};
ghost use Rattle.pm_store.specs.Store.{StoreView};
ghost use Rattle.pm_values.specs.declared.refusal.Refusal.{Refusal};
ghost use Rattle.pm_move_consumer.specs.Dropper as droppers;
ghost use Rattle.pm_move_consumer.specs.DropperAllCalls.{DidDrop, DropsNames, DropsOn};
ghost use Rattle.pm_move_consumer.specs.DropperMeaning as drops;
ghost use Rattle.pm_move_consumer.specs.DropperMeaning.{Drop, MayDrop};
ghost use Rattle.pm_move_consumer.specs.Mover as movers;
ghost use Rattle.pm_move_consumer.specs.Mover.{IsMoving, Moving};
ghost use Rattle.pm_move_consumer.specs.MoverAllCalls.{DidMove, MovesNames, MovesOn};
ghost use Rattle.pm_move_consumer.specs.MoverMeaning as moves;
ghost use Rattle.pm_move_consumer.specs.MoverMeaning.{MayMovePast, Move};
ghost use Rattle.pm_move_consumer.specs.declared.drop_phase.DropPhase.{DropPhase};
ghost use Rattle.pm_move_consumer.specs.declared.move_phase.MovePhase.{MovePhase};

use pm_model_folder::{past_law, settled_law, steps_law};
use pm_snapshot::consumer_law;

/// What movers and droppers know stays true through each kind of change of every actor.
pub fn known_law()
    ensures moves { (m : Move) (phase : MovePhase) (other : Actor) (f after : Files) (p q : Past) → Stands f p
        → Advances other f p after q → moves.Knows m phase f p → moves.Knows m phase after q }
    ensures drops { (d : Drop) (phase : DropPhase) (other : Actor) (f after : Files) (p q : Past) → Stands f p
        → Advances other f p after q → drops.Knows d phase f p → drops.Knows d phase after q }
{
    pm_model_following::kept_law();
}

/// Calls show one answer at most: a consumer was moved, or dropped, where none was refused, and each refusal comes
/// exactly where the call ended as it says.
pub fn one_answer_law()
    ensures moves { (m : Moving) (own : List Event) (one other : Result (List ℕ) Refusal) → DidMove m one own
        → DidMove m other own → one ≡ other }
    ensures drops { (name : List ℕ) (own : List Event) (one other : Result Bool Refusal) → DidDrop name one own
        → DidDrop name other own → one ≡ other }
{}

/// Whatever a crash leaves of a mover's or a dropper's call is one of its changes.
pub fn images_law()
    ensures moves { (m : Move) (phase : MovePhase) (call : Call) (f image : Files) (p : Past)
        → movers.next_call phase ≡ Some call → Stands f p → moves.Knows m phase f p → MayLeave call f image
        → (later : Past) × MayMovePast m f p image later × Stands image later }
    ensures drops { (d : Drop) (phase : DropPhase) (call : Call) (f image : Files) (p : Past)
        → droppers.next_call phase ≡ Some call → Stands f p → drops.Knows d phase f p → MayLeave call f image
        → (later : Past) × MayDrop d f p image later × Stands image later }
{
    past_law();
    steps_law();
    consumer_law();
}

/// What the call of a mover shows of a table that stands at it, where nobody else acts from then on; and what it does
/// to the past, whatever others do.
pub fn moves_law()
    ensures alone { (m : Moving) (result : Result (List ℕ) Refusal) (before after : StoreView) → IsMoving m
        → HasTrace (DidMove m result) before after → MovesNames m before after result }
    ensures beside { (m : Move) (result : Result (List ℕ) Refusal) (before after : StoreView) → IsMoving m.moving
        → HasTrace (DidMove m.moving result) before after → MovesOn m result before after }
{
    past_law();
    steps_law();
    settled_law();
    consumer_law();
    pm_model_following::kept_law();
}

/// So do the laws of a dropper's call.
pub fn drops_law()
    ensures alone { (name : List ℕ) (result : Result Bool Refusal) (before after : StoreView) → IsPlain name
        → HasTrace (DidDrop name result) before after → DropsNames name before after result }
    ensures beside { (d : Drop) (result : Result Bool Refusal) (before after : StoreView) → IsPlain d.name
        → HasTrace (DidDrop d.name result) before after → DropsOn d result before after }
{
    past_law();
    steps_law();
    settled_law();
}
