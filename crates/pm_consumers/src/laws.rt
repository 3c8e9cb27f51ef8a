//! Laws of listers of consumers. Each holds with no call.

ghost use Rattle.std.specs.Prelude.{◌≡◌, ◌↔◌, ◌⊎◌, ℕ, List, [], ◌∷◌, ◌++◌, Contains, IsSome, Some, Err};
ghost use Rattle.std.specs.FinMap as finite;
ghost use Rattle.pm_model_folder.specs.Folder.{Folder};
ghost use Rattle.pm_model_folder.specs.Ledger.{Past, Stands};
ghost use Rattle.pm_model_folder.specs.Paths.{consumer_folder, consumer_path};
ghost use Rattle.pm_machine.specs.Moves.{IsKept};
ghost use Rattle.pm_machine.specs.Step.{path_of};
ghost use Rattle.pm_machine.specs.Trace.{Event, HasTrace, faulted};
ghost use Rattle.pm_model_history.specs.History.{History};
ghost use Rattle.pm_store.specs.Answers.{Answers};
ghost use Rattle.pm_store.specs.declared.answer.Answer.{Answer};
ghost use Rattle.pm_store.specs.declared.call.Call.{Call};
ghost use Rattle.pm_store.specs.Files.{Files, IsListing};
ghost use Rattle.pm_store.specs.Images.{MayLeave};
ghost use Rattle.pm_store.specs.Store.{StoreView};
ghost use Rattle.pm_values.specs.declared.refusal.Refusal.{Refusal};
ghost use Rattle.pm_values.specs.declared.refusal.Refusal.TheVariants as refusals;
ghost use Rattle.pm_consumers.specs.AllCalls.{DidList, IsSameListing, Listing, ListsConsumers};
ghost use Rattle.pm_consumers.specs.Lister.{next_call, Shown};
ghost use Rattle.pm_consumers.specs.Names.{AreNames};
ghost use Rattle.pm_consumers.specs.declared.phase.Phase.{Phase};

/// The consumers whose files a listing of a folder has are those whose files are there.
pub fn listed_law()
    ensures { (f : Files) (h : History) (files names : List (List ℕ)) (name : List ℕ) → Folder f h
        → IsListing consumer_folder files f → AreNames files names
        → Contains names name ↔ IsSome (finite.get f (consumer_path name)) }
{}

/// Whatever others do between its calls, a folder that stands shows a lister no refusal but that memory ran out: each
/// file of a consumer that is there reads, and one that has gone is passed over. So E11 never comes of such a folder.
pub fn causes_law()
    ensures { (m : Phase) (call : Call) (answer : Answer) (refusal : Refusal) (f : Files) (p : Past) → Stands f p
        → next_call m ≡ Some call → Answers call answer f → Shown m answer refusal → refusal ≡ refusals.Memory }
{}

/// Whatever a crash leaves of a lister's next call has the same content at each path.
pub fn images_law()
    ensures { (m : Phase) (call : Call) (f image : Files) (p : Past) → next_call m ≡ Some call
        → MayLeave call f image → IsKept f p image p }
{}

/// The same calls show one answer at most, but that memory may have run out; and a call that failed shows that one.
pub fn one_answer_law()
    ensures one { (one other : Listing) (own : List Event) → DidList one own → DidList other own
        → IsSameListing one other ⊎ ((one ≡ Err refusals.Memory) ⊎ (other ≡ Err refusals.Memory)) }
    ensures failed { (earlier : List Event) (call : Call) (result : Listing)
        → DidList result (earlier ++ faulted call ∷ [])
        → (result ≡ Err refusals.Memory) ⊎ (result ≡ Err (refusals.StoreFault (path_of call))) }
{}

/// What all its calls show of a history that stands at the first one, where nobody else acts from then on.
pub fn all_calls_law()
    ensures { (result : Listing) (before after : StoreView) → HasTrace (DidList result) before after
        → ListsConsumers before after result }
{}
