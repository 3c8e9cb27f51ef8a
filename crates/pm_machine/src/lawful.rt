//! Readers whose phases keep the laws, and their steps.

ghost use Rattle.std.specs.Prelude.{◌≡◌, ◌⊎◌, ◌<◌, IsSome, IfErr, OnOk, OnErr};
ghost use Rattle.pm_machine.specs.Moves.{IsKept, Moves, Sound, Truthful};
ghost use Rattle.pm_machine.specs.Running.{Refuses, Stops};
ghost use Rattle.pm_machine.specs.Trace.{Acts, Recounts};
ghost use Rattle.pm_store.specs.declared.answer.Answer.{Answer};
ghost use Rattle.pm_store.specs.Store.{IsLater};

use crate::reader_phase::ReaderPhase;
use crate::running::{Running, make_step};
use pm_store::FileStore;
use pm_values::Refusal;
use std::alloc::Global;

/// Phases of a reader of which is proved once what each of its steps rests on.
pub trait LawfulPhase: ReaderPhase {
    /// States it for clauses.
    fn laws()
        ensures sound { Sound Self.call_of Self.goes (Refuses Self.shown Self.end) (Stops Self.end) Self.Folder
            (λ m. IsKept) Self.knows }
        ensures truthful { Truthful Self.call_of Self.holds (Refuses Self.shown Self.end) Self.Folder (λ m. IsKept)
            Self.knows Self.tells }
        ensures recounts { (asked : Self.Asked) → Recounts Self.call_of Self.goes (Refuses Self.shown Self.end)
            (Stops Self.end) (Self.did asked) (Self.shows asked) }
        ensures goes { (m : Self) (answer : Answer) (new : Self) → Self.holds m → Self.goes m answer new
            → (Self.calls_left new < Self.calls_left m) × (Self.ready new ⊎ (0 < Self.calls_left new)) }
        ensures keeps { (m : Self) (answer : Answer) (new : Self) → Self.goes m answer new → Self.keeps m new }
        ensures has_call { (m : Self) → Self.holds m → 0 < Self.calls_left m → IsSome (Self.call_of m) };
}

/// Makes the next call of the store. After a refusal, and once what it reads is ready, no call is left.
pub fn take_step<P: LawfulPhase, F: FileStore>(
    alloc: Global,
    reader: &mut Running<P>,
    store: &mut F,
) -> Result<(), Refusal>
    requires { 0 < P.calls_left reader.old }
    ensures moves { Moves P.Folder IsKept (P.knows reader.old) (P.knows reader.new) (F.seen store.old)
        (F.seen store.new) }
    ensures tells { IfErr result (λ refusal. Moves P.Folder IsKept (P.knows reader.old) (P.tells refusal)
        (F.seen store.old) (F.seen store.new)) }
    ensures acts { (asked : P.Asked) → Acts (P.did asked reader.old) (λ own. P.did asked reader.new own
        × IfErr result (λ refusal. P.shows asked refusal own)) (F.seen store.old) (F.seen store.new) }
    ensures reaches { OnOk result (P.ready reader.new ⊎ (0 < P.calls_left reader.new)) }
    ensures fewer { OnOk result (P.calls_left reader.new < P.calls_left reader.old) }
    ensures keeps { OnOk result (P.keeps reader.old reader.new) }
    ensures over { OnErr result (reader.new ≡ P.end) }
    ensures later { IsLater (F.seen store.old) (F.seen store.new) }
{
    P::laws();
    make_step(alloc, reader, store)
}
