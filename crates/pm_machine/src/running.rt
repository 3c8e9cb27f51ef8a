//! A machine that is made of phases.

ghost use Rattle.std.specs.Prelude.{◌≡◌, ◌<◌, None, IsSome, IfOk, IfErr, OnOk, OnErr};
ghost use Rattle.pm_machine.specs.Moves.{Moves, Sound, Truthful};
ghost use Rattle.pm_machine.specs.Running.{Refuses, Stops};
ghost use Rattle.pm_machine.specs.Trace.{Acts, Recounts};
ghost use Rattle.pm_store.specs.declared.answer.Answer.{Answer};
ghost use Rattle.pm_store.specs.Store.{IsLater};

use crate::machine::Machine;
use crate::phase::Phase;
use crate::phase_meaning::PhaseMeaning;
use crate::stepping::step;
use pm_store::{Answer, FileStore, LentCall};
use pm_values::Refusal;
use std::alloc::{AllocError, Global};
use std::marker::Model;
use std::mem;

/// A machine in one of its phases.
pub struct Running<P: Phase> {
    phase: P,
}

impl<P: Phase> Drop for Running<P> {
    fn drop(self) {
        let Running { phase } = self;
    }
}

impl<P: Phase> Model for Running<P> {
    ghost Value = { P };

    ghost view = { λ r. r.phase };

    ghost invariant = { λ r. P.holds r.phase };
}

impl<P: Phase> Running<P> {
    /// It begins in this phase.
    pub fn new(phase: P) -> Running<P>
        requires { P.holds phase }
        ensures { result ≡ phase }
    {
        Running { phase }
    }

    /// Its phase.
    pub fn phase(&self) -> &P
        ensures phase { result.now ≡ self.now }
        ensures holds { P.holds self.now }
    {
        &self.phase
    }

    /// Its phase, with which it ends.
    pub fn into_phase(self) -> P
        ensures phase { result ≡ self }
        ensures holds { P.holds self }
    {
        let Running { phase } = self;
        phase
    }

    /// States for clauses what holds in its phase.
    pub fn known(&self)
        ensures { P.holds self.now }
    {
        let _ = &self.phase;
    }

    /// Its phase, which is over then.
    fn leave(&mut self) -> P
        ensures left { (result ≡ self.old) × (self.new ≡ P.end) }
        ensures holds { P.holds result }
        ensures none { P.call_of self.new ≡ None }
    {
        mem::replace(&mut self.phase, P::over())
    }

    /// It is in this phase now.
    fn enter(&mut self, phase: P)
        requires { P.holds phase }
        ensures { self.new ≡ phase }
    {
        drop(mem::replace(&mut self.phase, phase));
    }
}

impl<P: Phase> Machine for Running<P> {
    ghost use Rattle.pm_machine.specs.Running.{Refuses, Stops};

    ghost call_of = { P.call_of };

    ghost goes = { P.goes };

    ghost refuses = { Refuses P.shown P.end };

    ghost stops = { Stops P.end };

    fn call(&self, alloc: Global) -> Result<Option<LentCall<'_>>, AllocError> {
        self.phase.call(alloc)
    }

    fn take(&mut self, alloc: Global, answer: Answer) -> Result<(), Refusal> {
        let phase = self.leave();
        match phase.next(alloc, answer) {
            Ok(phase) => {
                self.enter(phase);
                Ok(())
            }
            Err(refusal) => Err(refusal),
        }
    }

    fn stop(&mut self) {
        drop(self.leave());
    }
}

/// Makes the next call of the store. After a refusal no call is left. What a machine proves of its phases is asked for
/// here, and what each of its steps promises follows from that.
pub fn make_step<P: PhaseMeaning, F: FileStore>(
    alloc: Global,
    machine: &mut Running<P>,
    store: &mut F,
) -> Result<P::Step, Refusal>
    requires sound { Sound P.call_of P.goes (Refuses P.shown P.end) (Stops P.end) P.Folder P.Change P.knows }
    requires truthful { Truthful P.call_of P.holds (Refuses P.shown P.end) P.Folder P.Change P.knows P.tells }
    requires recounts { (asked : P.Asked)
        → Recounts P.call_of P.goes (Refuses P.shown P.end) (Stops P.end) (P.did asked) (P.shows asked) }
    requires goes { (m : P) (answer : Answer) (new : P) → P.holds m → P.goes m answer new
        → (P.calls_left new < P.calls_left m) × P.reaches (P.reached_at new) new × P.keeps m new }
    requires has_call { (m : P) → P.holds m → 0 < P.calls_left m → IsSome (P.call_of m) }
    requires left { 0 < P.calls_left machine.old }
    ensures moves { Moves P.Folder (P.Change machine.old) (P.knows machine.old) (P.knows machine.new)
        (F.seen store.old) (F.seen store.new) }
    ensures tells { IfErr result (λ refusal. Moves P.Folder (P.Change machine.old) (P.knows machine.old)
        (P.tells refusal) (F.seen store.old) (F.seen store.new)) }
    ensures acts { (asked : P.Asked) → Acts (P.did asked machine.old) (λ own. P.did asked machine.new own
        × IfErr result (λ refusal. P.shows asked refusal own)) (F.seen store.old) (F.seen store.new) }
    ensures reaches { IfOk result (λ step. P.reaches step machine.new) }
    ensures fewer { OnOk result (P.calls_left machine.new < P.calls_left machine.old) }
    ensures keeps { OnOk result (P.keeps machine.old machine.new) }
    ensures over { OnErr result (machine.new ≡ P.end) }
    ensures later { IsLater (F.seen store.old) (F.seen store.new) }
{
    machine.known();
    match step(alloc, machine, store) {
        Ok(()) => Ok(machine.phase().reached()),
        Err(refusal) => Err(refusal),
    }
}
