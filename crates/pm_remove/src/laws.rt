//! Laws of removers. Each holds with no call.

ghost use Rattle.std.specs.Prelude.{◌≡◌, ℕ, List, Some, IfSome};
ghost use Rattle.pm_machine.specs.Trace.{Event, Traces};
ghost use Rattle.pm_store.specs.declared.answer.Answer.{Answer};
ghost use Rattle.pm_store.specs.declared.call.Call.{Call};
ghost use Rattle.pm_store.specs.Answers.{Answers};
ghost use Rattle.pm_store.specs.Files.{Files, carried};
ghost use Rattle.pm_store.specs.Images.{MayLeave};
ghost use Rattle.pm_store.specs.Store.{StoreView, IsAlone};
ghost use Rattle.pm_remove.specs.Meaning.{Clears, LosesAll, LosesSome, Makes};
ghost use Rattle.pm_remove.specs.Remover.{next_call, Goes};
ghost use Rattle.pm_remove.specs.Trace.{Did, HasRemoved};
ghost use Rattle.pm_remove.specs.declared.phase.Phase.{Phase};

/// Whatever a crash leaves of a remover's next call, no path has another content but its own, which has gone if it was
/// there.
pub fn changes_law()
    ensures { (m : Phase) (call : Call) (f image : Files) → next_call m ≡ Some call → MayLeave call f image
        → Makes m f image }
{}

/// And once the call was answered, its path isn't there.
pub fn leads_law()
    ensures { (m : Phase) (answer : Answer) (new : Phase) (f : Files) → Goes m answer new
        → IfSome (next_call m) (λ call. Answers call answer f → Clears m f (carried call f)) }
{}

/// What all calls of a remover leave where nobody else acts: the files without the first so many of the paths, and each
/// image since its first call is such, too. Once all were removed they have lost all of them, and nothing else.
pub fn alone_law()
    ensures some { (paths : List (List ℕ)) (m : Phase) (own : List Event) (first after : StoreView) → Did paths m own
        → Traces own first after → IsAlone first after → LosesSome paths first after }
    ensures all { (paths : List (List ℕ)) (own : List Event) (first after : StoreView) → HasRemoved own paths
        → Traces own first after → IsAlone first after → LosesAll paths first after }
{}
