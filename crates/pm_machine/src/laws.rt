//! Laws of the definitions, which hold of every machine.

ghost use Rattle.std.specs.Prelude.{◌↔◌, List, Result, IfErr};
ghost use Rattle.pm_machine.specs.Moves.{Changes, Lasts, Moves, Sound, Stands};
ghost use Rattle.pm_machine.specs.Step.{Stepped};
ghost use Rattle.pm_machine.specs.Trace.{Acts, Event, HasTrace, Recounts};
ghost use Rattle.pm_store.specs.declared.call.Call.{Call};
ghost use Rattle.pm_store.specs.Files.{Files};
ghost use Rattle.pm_store.specs.Images.{MayLeave};
ghost use Rattle.pm_store.specs.Store.{StoreView, IsAlone, IsLater};
ghost use Rattle.pm_values.specs.declared.refusal.Refusal.{Refusal};

use crate::machine::Machine;
use crate::phase_meaning::PhaseMeaning;
use crate::running::Running;

/// What the laws say of a machine, and of the world that it acts in. No code asks for it.
pub trait Meaning: Machine {
    /// What files can stand for: the histories.
    ghost History: { Type 0 };

    /// Which history they stand for.
    ghost Folder: { Files → History → Type 0 };

    /// The kinds of change that it may make.
    ghost Change: { Self → Files → History → Files → History → Type 0 };

    /// What it knows of the files and of what they stand for.
    ghost knows: { Self → Files → History → Type 0 };

    /// What others know of both.
    ghost others: { Files → History → Type 0 };

    /// Which calls it made.
    ghost did: { Self → List Event → Type 0 };

    /// Which calls show a refusal.
    ghost shows: { Refusal → List Event → Type 0 };
}

/// What the laws say of a machine of phases: some were asked for, and no fact of others' is of concern to it.
impl<P: PhaseMeaning> Meaning for Running<P> {
    ghost History = { P.History };

    ghost Folder = { P.Folder };

    ghost Change = { P.Change };

    ghost knows = { P.knows };

    ghost others = { λ f h. Unit {0} };

    ghost did = { λ m own. (asked : P.Asked) × P.did asked m own };

    ghost shows = { λ refusal own. (asked : P.Asked) × P.shows asked refusal own };
}

/// What a step does is a change of some kind, or none, and what the machine knows then is true.
pub fn moved_law<M: Meaning>()
    ensures { (old new : M) (before after : StoreView) (result : Result (Unit {0}) Refusal) →
        Sound M.call_of M.goes M.refuses M.stops M.Folder M.Change M.knows →
        Stepped M.call_of M.goes M.refuses M.stops old new before after result →
        Moves M.Folder (M.Change old) (M.knows old) (M.knows new) before after }
{}

/// Where nobody uses the store in another way, a step leaves files that stand for a history. What others know of both
/// stays true where each kind of change keeps it.
pub fn stands_law<M: Meaning>()
    ensures { (old new : M) (before after : StoreView) →
        Lasts M.Folder (M.Change old) M.others → IsAlone before after →
        Moves M.Folder (M.Change old) (M.knows old) (M.knows new) before after →
        Stands M.Folder (λ f h. M.others f h × M.knows old f h) before →
        Stands M.Folder (λ f h. M.others f h × M.knows new f h) after }
{}

/// What a crash may leave of a call is a change of some kind exactly where each effect of the call is.
pub fn images_law<M: Meaning>()
    ensures { (m : M) (call : Call) (f : Files) (h : M.History) → Changes (M.Change m) call f h
        ↔ ((image : Files) → MayLeave call f image → (later : M.History) × M.Change m f h image later) }
{}

/// The call of a step is the next after those that led to the machine, and shows the refusal, if there is one.
pub fn acted_law<M: Meaning>()
    ensures { (old new : M) (before after : StoreView) (result : Result (Unit {0}) Refusal) →
        Recounts M.call_of M.goes M.refuses M.stops M.did M.shows →
        Stepped M.call_of M.goes M.refuses M.stops old new before after result →
        Acts (M.did old) (λ own. M.did new own × IfErr result (λ refusal. M.shows refusal own)) before after }
{}

/// Steps in a row make one trace, in which each call has its place.
pub fn traces_law<M: Meaning>()
    ensures { (old new : M) (first before after : StoreView) (result : Result (Unit {0}) Refusal) →
        HasTrace (M.did old) first before → IsLater before after →
        Acts (M.did old) (λ own. M.did new own × IfErr result (λ refusal. M.shows refusal own)) before after →
        HasTrace (λ own. M.did new own × IfErr result (λ refusal. M.shows refusal own)) first after }
{}
