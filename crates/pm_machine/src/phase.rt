//! The phases that a machine is made of.

ghost use Rattle.std.specs.Prelude.{◌≡◌, Option, None, Ok, IfOk, IfErr, IsSomeAnd, option_map};
ghost use Rattle.pm_store.specs.Answers.{MayAnswer};
ghost use Rattle.pm_store.specs.Lent.{lent_call};
ghost use Rattle.pm_store.specs.declared.answer.Answer.{Answer};
ghost use Rattle.pm_store.specs.declared.call.Call.{Call};
ghost use Rattle.pm_values.specs.declared.refusal.Refusal.{Refusal};

use pm_store::{Answer, LentCall};
use pm_values::Refusal;
use std::alloc::{AllocError, Global};

/// How far a command has come, with what it holds there: an enum of the command's own crate. `Running` makes a machine
/// of it.
pub trait Phase: Drop {
    /// The call that it makes next, or none at its end.
    ghost call_of: { Self → Option Call };

    /// What an answer that it goes on with leads to.
    ghost goes: { Self → Answer → Self → Type 0 };

    /// Which refusal an answer shows.
    ghost shown: { Self → Answer → Refusal → Type 0 };

    /// What holds in each phase.
    ghost holds: { Self → Type 0 };

    /// The end after a refusal.
    ghost end: { Self };

    /// Its next call, to which it lends the bytes. At its end there is none, and to say so takes no memory.
    fn call(&self, alloc: Global) -> Result<Option<LentCall<'_>>, AllocError>
        requires { holds self.now }
        ensures call { IfOk result (λ call. option_map lent_call call ≡ call_of self.now) }
        ensures end { call_of self.now ≡ None → result ≡ Ok None };

    /// The phase after what its call was answered, or the refusal that this shows.
    fn next(self, alloc: Global, answer: Answer) -> Result<Self, Refusal>
        requires may { IsSomeAnd (call_of self) (λ call. MayAnswer call answer) }
        requires holds { holds self }
        ensures goes { IfOk result (goes self answer) }
        ensures holds { IfOk result holds }
        ensures refuses { IfErr result (shown self answer) };

    /// The end after a refusal, where no call is left.
    fn over() -> Self
        ensures over { result ≡ end }
        ensures holds { holds end }
        ensures none { call_of end ≡ None };
}
