//! The trait of a machine, which knows no store.

ghost use Rattle.std.specs.Prelude.{◌≡◌, Option, None, Ok, IfOk, OnOk, IfErr, OnErr, IsSomeAnd, option_map};
ghost use Rattle.pm_store.specs.Answers.{MayAnswer};
ghost use Rattle.pm_store.specs.Lent.{lent_call};
ghost use Rattle.pm_store.specs.declared.answer.Answer.{Answer};
ghost use Rattle.pm_store.specs.declared.call.Call.{Call};
ghost use Rattle.pm_values.specs.declared.refusal.Refusal.{Refusal};

use pm_store::{Answer, LentCall};
use pm_values::Refusal;
use std::alloc::{AllocError, Global};

/// A command as a machine: it tells the call of a store that it makes next, and takes what was answered. After a
/// refusal, or once it is stopped, it is at its end.
pub trait Machine {
    /// The call that it makes next, or none at its end.
    ghost call_of: { Self → Option Call };

    /// What an answer that it goes on with leads to.
    ghost goes: { Self → Answer → Self → Type 0 };

    /// Which refusal an answer shows, and what is left of it then.
    ghost refuses: { Self → Answer → Refusal → Self → Type 0 };

    /// What is left of it where memory ran out or the store failed.
    ghost stops: { Self → Self → Type 0 };

    /// Its next call, to which it lends the bytes. At its end there is none, and to say so takes no memory.
    fn call(&self, alloc: Global) -> Result<Option<LentCall<'_>>, AllocError>
        ensures call { IfOk result (λ call. option_map lent_call call ≡ call_of self.now) }
        ensures end { call_of self.now ≡ None → result ≡ Ok None };

    /// Takes what its call was answered.
    fn take(&mut self, alloc: Global, answer: Answer) -> Result<(), Refusal>
        requires may { IsSomeAnd (call_of self.old) (λ call. MayAnswer call answer) }
        ensures goes { OnOk result (goes self.old answer self.new) }
        ensures refuses { IfErr result (λ refusal. refuses self.old answer refusal self.new) }
        ensures over { OnErr result (call_of self.new ≡ None) };

    /// Ends it: its call couldn't be made, or the store failed in it.
    fn stop(&mut self)
        ensures stops { stops self.old self.new }
        ensures over { call_of self.new ≡ None };
}
