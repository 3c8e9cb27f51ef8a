//! What the steps of a machine mean, and how far they lead.

ghost use Rattle.std.specs.Prelude.{◌≡◌, ℕ, List};
ghost use Rattle.pm_machine.specs.Trace.{Event};
ghost use Rattle.pm_store.specs.Files.{Files};
ghost use Rattle.pm_values.specs.declared.refusal.Refusal.{Refusal};

use crate::phase::Phase;

/// Phases with what `Meaning` says of a machine, and with how far it is to their end.
pub trait PhaseMeaning: Phase {
    /// What a step that goes on reached.
    type Step;

    /// What files can stand for: the histories.
    ghost History: { Type 0 };

    /// Which history they stand for.
    ghost Folder: { Files → History → Type 0 };

    /// The kinds of change that it may make.
    ghost Change: { Self → Files → History → Files → History → Type 0 };

    /// What it knows of the files and of what they stand for.
    ghost knows: { Self → Files → History → Type 0 };

    /// What a refusal tells of the files and of what they stand for.
    ghost tells: { Refusal → Files → History → Type 0 };

    /// What it may have been asked for, which its calls so far depend on.
    ghost Asked: { Type 0 };

    /// Which calls it made.
    ghost did: { Asked → Self → List Event → Type 0 };

    /// Which calls show a refusal.
    ghost shows: { Asked → Refusal → List Event → Type 0 };

    /// How many calls are left at most, where no refusal comes.
    ghost calls_left: { Self → ℕ };

    /// What a step that goes on to this phase reached.
    ghost reached_at: { Self → Self.Step };

    /// What that says of the phase.
    ghost reaches: { Self.Step → Self → Type 0 };

    /// What of it stays where a step goes on.
    ghost keeps: { Self → Self → Type 0 };

    /// What a step that went on has reached.
    fn reached(&self) -> Self::Step
        ensures { result ≡ reached_at self.now };
}
