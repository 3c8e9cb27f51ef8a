//! Laws of readers of the latest snapshot's id. Each holds with no call.

ghost use Rattle.std.specs.Prelude.{◌≡◌, ◌⊎◌, ℕ, List, [], ◌∷◌, ◌++◌, Some, Result, Err};
ghost use Rattle.pm_model_folder.specs.Changes.{Actor};
ghost use Rattle.pm_model_folder.specs.Ledger.{Advances, Past, Stands, count_of};
ghost use Rattle.pm_machine.specs.Moves.{IsKept};
ghost use Rattle.pm_machine.specs.Step.{path_of};
ghost use Rattle.pm_machine.specs.Trace.{Event, HasTrace, faulted};
ghost use Rattle.pm_read_schema.specs.Reader.{snapshots_call};
ghost use Rattle.pm_store.specs.Answers.{Answers};
ghost use Rattle.pm_store.specs.declared.answer.Answer.{Answer};
ghost use Rattle.pm_store.specs.declared.call.Call.{Call};
ghost use Rattle.pm_store.specs.Files.{Files};
ghost use Rattle.pm_store.specs.Images.{MayLeave};
ghost use Rattle.pm_store.specs.Store.{StoreView};
ghost use Rattle.pm_values.specs.declared.refusal.Refusal.{Refusal};
ghost use Rattle.pm_values.specs.declared.refusal.Refusal.TheVariants as refusals;
ghost use Rattle.pm_read_latest.specs.AllCalls.{DidLatest, FindsLatests};
ghost use Rattle.pm_read_latest.specs.Meaning.{Knows};
ghost use Rattle.pm_read_latest.specs.Reader.{next_call, Goes};
ghost use Rattle.pm_read_latest.specs.declared.phase.Phase.{Phase};
ghost use Rattle.pm_read_latest.specs.declared.phase.Phase.TheVariants as phases;

/// What a reader knows stays true through each kind of change of every actor.
pub fn known_law()
    ensures { (m : Phase) (other : Actor) (f after : Files) (p q : Past) → Stands f p → Advances other f p after q
        → Knows m f p → Knows m after q }
{}

/// Whatever others do before the listing and after it, the id is that of the newest snapshot which the table has had
/// when the snapshots are listed.
pub fn listed_law()
    ensures { (answer : Answer) (latest : ℕ) (f : Files) (p : Past) → Stands f p → Answers snapshots_call answer f
        → Goes phases.List answer (phases.Ready latest) → latest ≡ count_of p.history }
{}

/// Whatever a crash leaves of its call has the same content at each path.
pub fn images_law()
    ensures { (m : Phase) (call : Call) (f image : Files) (p : Past) → next_call m ≡ Some call
        → MayLeave call f image → IsKept f p image p }
{}

/// The same calls show one answer at most, but that memory may have run out; and a call that failed shows that one.
pub fn one_answer_law()
    ensures one { (one other : Result ℕ Refusal) (own : List Event) → DidLatest one own → DidLatest other own
        → (one ≡ other) ⊎ ((one ≡ Err refusals.Memory) ⊎ (other ≡ Err refusals.Memory)) }
    ensures failed { (earlier : List Event) (call : Call) (result : Result ℕ Refusal)
        → DidLatest result (earlier ++ faulted call ∷ [])
        → (result ≡ Err refusals.Memory) ⊎ (result ≡ Err (refusals.StoreFault (path_of call))) }
{}

/// What its call shows of a history that stands at it, where nobody else acts from then on.
pub fn all_calls_law()
    ensures { (result : Result ℕ Refusal) (before after : StoreView)
        → HasTrace (DidLatest result) before after → FindsLatests before after result }
{}
