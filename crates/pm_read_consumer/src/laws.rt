//! Laws of readers of consumers' files. Each holds with no call.

ghost use Rattle.std.specs.Prelude.{◌≡◌, ◌⊎◌, ℕ, List, [], ◌∷◌, ◌++◌, Some, Result, Err};
ghost use Rattle.pm_model_folder.specs.Ledger.{Past, Stands};
ghost use Rattle.pm_machine.specs.Moves.{IsKept};
ghost use Rattle.pm_machine.specs.Step.{path_of};
ghost use Rattle.pm_machine.specs.Trace.{Event, HasTrace, faulted};
ghost use Rattle.pm_store.specs.Answers.{Answers};
ghost use Rattle.pm_store.specs.declared.answer.Answer.{Answer};
ghost use Rattle.pm_store.specs.declared.call.Call.{Call};
ghost use Rattle.pm_store.specs.Files.{Files};
ghost use Rattle.pm_store.specs.Images.{MayLeave};
ghost use Rattle.pm_store.specs.Store.{StoreView};
ghost use Rattle.pm_values.specs.declared.refusal.Refusal.{Refusal};
ghost use Rattle.pm_values.specs.declared.refusal.Refusal.TheVariants as refusals;
ghost use Rattle.pm_model_folder.specs.Paths.{consumer_path};
ghost use Rattle.pm_read_consumer.specs.AllCalls.{DidFind, FindsConsumers};
ghost use Rattle.pm_read_consumer.specs.Meaning.{IsFoundIn};
ghost use Rattle.pm_read_consumer.specs.Reader.{consumer_call, next_call, Goes, Shown};
ghost use Rattle.pm_read_consumer.specs.declared.phase.FoundConsumer.{FoundConsumer};
ghost use Rattle.pm_read_consumer.specs.declared.phase.Phase.{Phase};
ghost use Rattle.pm_read_consumer.specs.declared.phase.Phase.TheVariants as phases;

use pm_model_folder::consumers_law;

/// What the answer to a reader's call shows of a table that stands at it, whatever others do before it and after it.
pub fn found_law()
    ensures found { (name : List ℕ) (answer : Answer) (r : FoundConsumer) (f : Files) (p : Past) → Stands f p
        → Answers (consumer_call name) answer f → Goes (phases.Read (consumer_path name)) answer (phases.Ready r)
        → IsFoundIn name r f p }
    // no file of a consumer is damaged
    ensures reads { (name : List ℕ) (answer : Answer) (refusal : Refusal) (f : Files) (p : Past) → Stands f p
        → Answers (consumer_call name) answer f → Shown (phases.Read (consumer_path name)) answer refusal
        → refusal ≡ refusals.Memory }
{
    consumers_law();
}

/// Whatever a crash leaves of its call has the same content at each path.
pub fn images_law()
    ensures { (m : Phase) (call : Call) (f image : Files) (p : Past) → next_call m ≡ Some call
        → MayLeave call f image → IsKept f p image p }
{}

/// The same calls show one answer at most, but that memory may have run out; and a call that failed shows that one.
pub fn one_answer_law()
    ensures one { (name : List ℕ) (one other : Result FoundConsumer Refusal) (own : List Event) → DidFind name one own
        → DidFind name other own → (one ≡ other) ⊎ ((one ≡ Err refusals.Memory) ⊎ (other ≡ Err refusals.Memory)) }
    ensures failed { (name : List ℕ) (earlier : List Event) (call : Call) (result : Result FoundConsumer Refusal)
        → DidFind name result (earlier ++ faulted call ∷ [])
        → (result ≡ Err refusals.Memory) ⊎ (result ≡ Err (refusals.StoreFault (path_of call))) }
{}

/// What its call shows of a history that stands at it, where nobody else acts from then on.
pub fn all_calls_law()
    ensures { (name : List ℕ) (result : Result FoundConsumer Refusal) (before after : StoreView)
        → HasTrace (DidFind name result) before after → FindsConsumers name before after result }
{}
