//! Phases of machines that change nothing.

ghost use Rattle.std.specs.Prelude.{◌⊎◌, ◌<◌, ℕ, List};
ghost use Rattle.pm_machine.specs.Moves.{IsKept};
ghost use Rattle.pm_machine.specs.Trace.{Event};
ghost use Rattle.pm_store.specs.Files.{Files};
ghost use Rattle.pm_values.specs.declared.refusal.Refusal.{Refusal};

use crate::phase::Phase;
use crate::phase_meaning::PhaseMeaning;

/// Phases of a reader: no step of it changes anything, and it is at its end once what it reads is ready.
pub trait ReaderPhase: Phase {
    /// What files can stand for: the histories.
    ghost History: { Type 0 };

    /// Which history they stand for.
    ghost Folder: { Files → History → Type 0 };

    /// What it knows of the files and of what they stand for.
    ghost knows: { Self → Files → History → Type 0 };

    /// What a refusal tells of the files and of what they stand for.
    ghost tells: { Refusal → Files → History → Type 0 };

    /// What it may have been asked for, which its calls so far depend on.
    ghost Asked: { Type 0 };

    /// Which calls it made.
    ghost did: { Asked → Self → List Event → Type 0 };

    /// Which calls show a refusal.
    ghost shows: { Asked → Refusal → List Event → Type 0 };

    /// How many calls are left at most, where no refusal comes.
    ghost calls_left: { Self → ℕ };

    /// What it reads is there to be taken.
    ghost ready: { Self → Type 0 };

    /// What of it stays where it goes on.
    ghost keeps: { Self → Self → Type 0 } = { λ old new. Unit {0} };
}

impl<P: ReaderPhase> PhaseMeaning for P {
    type Step = ();

    ghost History = { P.History };

    ghost Folder = { P.Folder };

    ghost Change = { λ m. IsKept };

    ghost knows = { P.knows };

    ghost tells = { P.tells };

    ghost Asked = { P.Asked };

    ghost did = { P.did };

    ghost shows = { P.shows };

    ghost calls_left = { P.calls_left };

    ghost reached_at = { λ m. tt };

    ghost reaches = { λ step m. P.ready m ⊎ (0 < P.calls_left m) };

    ghost keeps = { P.keeps };

    fn reached(&self) {}
}
