//! Laws of expirers. Each holds with no call but of the laws of crates below.

ghost use Rattle.std.specs.Prelude.{◌≡◌, ◌≢◌, ◌⊎◌, ℕ, ◌<◌, ◌≤◌, ◌≤ℤ◌, ℤ, List, [], ◌∷◌, ◌++◌, Option, Some, IsSome};
ghost use Rattle.std.specs.Prelude.{Result, Err};
ghost use Rattle.std.specs.FinMap as finite;
ghost use Rattle.pm_model_folder.specs.Paths.{floor_path};
ghost use Rattle.pm_machine.specs.Moves.{Sound};
ghost use Rattle.pm_machine.specs.Running.{Refuses, Stops};
ghost use Rattle.pm_machine.specs.Step.{path_of};
ghost use Rattle.pm_machine.specs.Trace.{Event, faulted, Recounts, Traces};
ghost use Rattle.pm_model_folder.specs.Changes.{Actor, HavePlainNames};
ghost use Rattle.pm_model_history.specs.History.{Entry, History, table};
ghost use Rattle.pm_model_folder.specs.Folder.{Folder};
ghost use Rattle.pm_model_folder.specs.Ledger.{Advances, Past, Stands};
ghost use Rattle.pm_model_folder.specs.Meaning.{ConsumerAt};
ghost use Rattle.pm_model_consumers.specs.Claims.{Counts};
ghost use Rattle.pm_snapshot.specs.declared.consumer.Consumer.{Consumer};
ghost use Rattle.pm_schema.specs.declared.schema.TableSchema.{TableSchema};
ghost use Rattle.pm_consumer_files.specs.declared.lines.NamedConsumer.{NamedConsumer};
ghost use Rattle.pm_consumers.specs.AllCalls.{AreConsumersOf};
ghost use Rattle.pm_announce.specs.Announcer.{end_after};
ghost use Rattle.pm_snapshots.specs.AllCalls.{AreLinesOf};
ghost use Rattle.pm_snapshots.specs.declared.line.SnapshotLine.{SnapshotLine};
ghost use Rattle.pm_read_expiry.specs.declared.asking.Found.{Found};
ghost use Rattle.pm_read_expiry.specs.Trace.{HasFound};
ghost use Rattle.pm_read_expiry.specs.Times.{times_of, IsChain, IsLeastNext};
ghost use Rattle.pm_store.specs.Answers.{Answers};
ghost use Rattle.pm_store.specs.declared.answer.Answer.{Answer};
ghost use Rattle.pm_store.specs.declared.call.Call.{Call};
ghost use Rattle.pm_store.specs.Files.{Files};
ghost use Rattle.pm_store.specs.Images.{MayLeave};
ghost use Rattle.pm_store.specs.Store.{StoreView, IsAlone};
ghost use Rattle.pm_read_schema.specs.AllCalls.{HasFiles};
ghost use Rattle.pm_read_expiry.specs.declared.asking.Asking.{Asking};
ghost use Rattle.pm_expire.specs.AllCalls.{announced, AreRemovalsOf, ChangesAt, DidExpire, ExpiresFiles, FindsAlone};
ghost use Rattle.pm_expire.specs.AllCalls.{HasGivenBack, HasToGo, IsEndIn, IsFirst, IsImageOf, IsRefusedFor};
ghost use Rattle.pm_expire.specs.AllCalls.{KeepsAll, SparesFrom};
ghost use Rattle.pm_expire.specs.Expirer.{next_call, Goes, IsExpirer, Shown};
ghost use Rattle.pm_expire.specs.Meaning.{Knows, KnowsBeside, KnowsDone, Makes, MakesBeside, MayRefuse};
ghost use Rattle.pm_expire.specs.Meaning.{StandsBeside};
ghost use Rattle.pm_expire.specs.Trace.{Did, Shows};
ghost use Rattle.pm_expire_end.specs.Expiry.{KeepsMore};
ghost use Rattle.pm_remove.specs.Meaning.{HasLost, IsWithout};
ghost use Rattle.pm_snapshot.specs.Names.{greatest};
ghost use Rattle.pm_read_expiry.specs.Found.{IsAsking};
ghost use Rattle.pm_values.specs.declared.refusal.Refusal.{Refusal};
ghost use Rattle.pm_values.specs.declared.refusal.Refusal.TheVariants as refusals;
ghost use Rattle.pm_expire.specs.declared.all_calls.Kept.{Kept};
ghost use Rattle.pm_expire.specs.declared.phase.Phase.{Phase};
ghost use Rattle.pm_expire.specs.declared.phase.Phase.TheVariants as phases;

use pm_consumers::listed_law;
use pm_manifest::{ManifestMeta, joined_law};
use pm_model_contents::one_contents_law;
use pm_model_expiry::{announces_law, reads_law, removes_law};
use pm_model_folder::{consumers_law, past_law};
use pm_read_whole::paths_law;
use pm_record::one_reading_law;
use pm_snapshot::consumer_law;

/// Whoever expires a table: each effect of its next call is one of its changes, and what it knows holds after each
/// answer, refusal and fault.
pub fn sound_law()
    ensures { Sound next_call Goes (Refuses Shown phases.Over) (Stops phases.Over) StandsBeside MakesBeside
        KnowsBeside }
{
    announces_law();
    joined_law();
    listed_law();
    one_reading_law::<ManifestMeta>();
    past_law();
    paths_law();
    pm_announce::known_law();
    pm_read_expiry::known_law();
    reads_law();
    removes_law();
}

/// Each call of an expirer follows from those before it, and a refusal is shown by the calls up to it.
pub fn recounts_law()
    ensures { (a : Asking) → Recounts next_call Goes (Refuses Shown phases.Over) (Stops phases.Over) (Did a) (Shows a) }
{
    joined_law();
}

/// What an expirer knows stays true through each kind of change of every actor.
pub fn known_law()
    ensures { (m : Phase) (other : Actor) (f after : Files) (p q : Past) → Stands f p → Advances other f p after q
        → Knows m f p → Knows m after q }
{
    pm_announce::known_law();
    pm_model_expiry::known_law();
    pm_read_expiry::known_law();
    pm_read_whole::known_law();
}

/// Whatever others do between its calls, a folder that stands shows an expirer no refusal but that memory ran out, that
/// a snapshot which it reads has gone, or the first tag, where one is there. So E9, E11 and E12 never come of such a
/// folder.
pub fn causes_law()
    ensures { (m : Phase) (call : Call) (answer : Answer) (refusal : Refusal) (f : Files) (p : Past) → Stands f p
        → IsExpirer m → Knows m f p → next_call m ≡ Some call → Answers call answer f → Shown m answer refusal
        → MayRefuse f p refusal }
{
    pm_read_whole::causes_law();
}

/// Whatever a crash leaves of its next call is one of its changes.
pub fn images_law()
    ensures { (me : Actor) (m : Phase) (call : Call) (f image : Files) (p : Past) → next_call m ≡ Some call
        → Stands f p → Knows m f p → MayLeave call f image → (later : Past) × Makes me m f p image later }
{
    sound_law();
}

/// Once it is done, the first snapshot that it keeps is at most the number of each consumer that counts, whoever else
/// acted meanwhile: of a settled one, and of one whose follower has listed the floors.
pub fn done_law()
    ensures { (first last : ℕ) (f : Files) (p : Past) (name : List ℕ) (c : Consumer) → Stands f p
        → KnowsDone first last f p → Counts (p.claims name) → ConsumerAt f name c → first ≤ c.next }
{
    consumer_law();
    consumers_law();
}

/// Of a folder that stands no snapshot lacks between two others: all that are there count for the end of an expiry.
pub fn chain_law()
    ensures { (f : Files) (s : TableSchema) (entries : List Entry) (lines : List SnapshotLine) (chain : List (ℕ × ℤ))
        → Folder f (table s entries) → AreLinesOf f lines → IsChain (times_of lines) chain → chain ≡ times_of lines }
{}

/// The end of an expiry follows from what is asked and from the files: there is one at most.
pub fn one_end_law()
    ensures { (a : Asking) (f : Files) (end other : ℕ) → IsEndIn a f end → IsEndIn a f other → end ≡ other }
{}

/// What a reader of what an expiry needs found, where nobody else acts, is what the files have: their end, the least of
/// their snapshots and the newest.
pub fn found_law()
    ensures { (a : Asking) (x : Found) (own : List Event) (first after : StoreView) (f : Files) (h : History)
        → HasFound a x own → Traces own first after → IsAlone first after → HasFiles f first → Folder f h
        → FindsAlone a f h x first after }
{}

/// Where the end that was found is the first snapshot, an expiry that is alone changes no path, in no image either.
pub fn kept_law()
    ensures { (a : Asking) (x : Found) (first last : ℕ) (own : List Event) (before after : StoreView) (f : Files)
        (h : History) → x.end ≡ x.first → first ≡ x.end → last ≡ x.last → HasFound a x own → Traces own before after
        → IsAlone before after → HasFiles f before → Folder f h → KeepsAll a f h first last before after }
{}

/// Where at least one snapshot is kept, consumers that are as they were lower no end that was found.
pub fn again_law()
    ensures { (a : Asking) (x : Found) (own : List Event) (before after : StoreView) (f : Files) (h : History)
        (consumers : List NamedConsumer) (next : Option ℕ) → 1 ≤ a.keep.min → HasFound a x own
        → Traces own before after → IsAlone before after → HasFiles f before → Folder f h
        → AreConsumersOf f consumers → IsLeastNext consumers next → end_after x next ≡ x.end }
{
    pm_expire_end::end_law();
}

/// Where the floor of an end is created, whether or not it was there, it is there and no other path changes; and an end
/// of the files with it is one of those without it.
pub fn announced_law()
    ensures others { (f : Files) (end : ℕ) (path : List ℕ) → path ≢ floor_path end
        → finite.get (announced f end) path ≡ finite.get f path }
    ensures there { (f : Files) (end : ℕ) → IsSome (finite.get (announced f end) (floor_path end)) }
    ensures consumers { (f : Files) (end : ℕ) (consumers : List NamedConsumer)
        → AreConsumersOf (announced f end) consumers → AreConsumersOf f consumers }
    ensures end { (a : Asking) (f : Files) (floor end : ℕ) → IsEndIn a (announced f floor) end → IsEndIn a f end }
{}

/// Once all were removed that were to be, all that goes with the snapshots below the end is gone, and nothing else.
pub fn given_back_law()
    ensures { (f : Files) (s : TableSchema) (entries : List Entry) (first end : ℕ) (paths : List (List ℕ)) (g : Files)
        → Folder f (table s entries) → IsFirst f s first → first < end → end ≤ greatest
        → AreRemovalsOf s f first end paths → IsWithout (announced f end) paths g → HasGivenBack s f end g }
{}

/// Nobody who reads a snapshot from the end on, or a consumer, finds other bytes than before.
pub fn spares_law()
    ensures { (f : Files) (s : TableSchema) (entries : List Entry) (end : ℕ) (g : Files) → Folder f (table s entries)
        → HavePlainNames s → HasGivenBack s f end g → SparesFrom s end f g }
{}

/// Nor does anybody in an image, where the first so many were removed of what was to be.
pub fn image_spares_law()
    ensures { (f : Files) (s : TableSchema) (entries : List Entry) (first end : ℕ) (paths : List (List ℕ)) (g : Files)
        → Folder f (table s entries) → HavePlainNames s → IsFirst f s first → first < end
        → AreRemovalsOf s f first end paths → HasLost (announced f end) paths g → SparesFrom s end f g }
{}

/// An image of an expiry is another at a path only where the expiry takes the file there with snapshots, or makes its
/// floor.
pub fn image_law()
    ensures { (a : Asking) (f g : Files) (path : List ℕ) → IsImageOf a f g
        → (finite.get g path ≡ finite.get f path) ⊎ ChangesAt a f g path }
{}

/// What a stopped expiry left of snapshots goes with the next one: asked to keep no more, at no earlier moment, its end
/// isn't lower.
pub fn resumes_law()
    ensures { (a later : Asking) (f g : Files) (s : TableSchema) (entries : List Entry) (first end other : ℕ)
        (paths : List (List ℕ)) → 1 ≤ a.keep.min → KeepsMore later.keep a.keep → a.now ≤ℤ later.now → a.schema ≡ s
        → HavePlainNames s → Folder f (table s entries) → Folder g (table s entries) → HasToGo a f first end
        → AreRemovalsOf s f first end paths → HasLost (announced f end) paths g → IsEndIn later g other
        → end ≤ other }
{
    pm_expire_end::end_law();
    pm_expire_end::more_law();
    pm_expire_end::one_end_law();
}

/// What all calls of an expiry do to the files, by its answer, where nobody else acts from the first one on.
pub fn all_calls_law()
    ensures { (a : Asking) (result : Result Kept Refusal) (own : List Event) (before after : StoreView) (f : Files)
        (h : History) → IsAsking a → HavePlainNames a.schema → DidExpire a result own → Traces own before after
        → IsAlone before after → HasFiles f before → Folder f h → ExpiresFiles a f h before after result }
{
    given_back_law();
    one_contents_law();
    pm_expire_end::end_law();
    pm_model_folder::kept_law();
    pm_remove::alone_law();
}

/// Where nobody else acts a refusal comes of a tag, of memory or of a fault that was counted alone: no file is damaged,
/// none was lost, and no snapshot has gone that was listed.
pub fn alone_causes_law()
    ensures { (a : Asking) (refusal : Refusal) (own : List Event) (before after : StoreView) (f : Files) (h : History)
        → IsAsking a → HavePlainNames a.schema → DidExpire a (Err refusal) own → Traces own before after
        → IsAlone before after → HasFiles f before → Folder f h → IsRefusedFor a f before after refusal }
{
    given_back_law();
    joined_law();
    one_contents_law();
    one_reading_law::<ManifestMeta>();
    one_reading_law::<pm_manifest::Entry>();
    pm_expire_end::end_law();
    pm_model_folder::kept_law();
    pm_remove::alone_law();
}

/// The same calls of an expiry show one answer at most, but that memory may have run out: so each other answer comes
/// exactly where the calls are those that it names; and after a call that failed it is that one.
pub fn one_answer_law()
    ensures one { (a : Asking) (one other : Result Kept Refusal) (own : List Event) → DidExpire a one own
        → DidExpire a other own
        → (one ≡ other) ⊎ ((one ≡ Err refusals.Memory) ⊎ (other ≡ Err refusals.Memory)) }
    ensures failed { (a : Asking) (earlier : List Event) (call : Call) (result : Result Kept Refusal)
        → DidExpire a result (earlier ++ faulted call ∷ [])
        → (result ≡ Err refusals.Memory) ⊎ (result ≡ Err (refusals.StoreFault (path_of call))) }
{
    joined_law();
    one_reading_law::<ManifestMeta>();
    one_reading_law::<pm_manifest::Entry>();
}
