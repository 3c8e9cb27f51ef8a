//! Laws of readers of frames.

ghost use Rattle.std.specs.Prelude.{◌≡◌, ◌⊎◌, ℕ, suc, ◌+◌, ◌-◌, ◌≤◌, List, [], ◌∷◌, ◌++◌, length, Some, Result, Err};
ghost use Rattle.std.specs.List.{flat_map, range_with_len};
ghost use Rattle.pm_model_folder.specs.Changes.{Actor};
ghost use Rattle.pm_model_folder.specs.Ledger.{Advances, Past, Stands};
ghost use Rattle.pm_model_following.specs.Following.{frame};
ghost use Rattle.pm_model_history.specs.History.{Entry as CommitView, GoesOn, History, table};
ghost use Rattle.pm_machine.specs.Moves.{IsKept};
ghost use Rattle.pm_machine.specs.Step.{path_of};
ghost use Rattle.pm_machine.specs.Trace.{Event, HasTrace, faulted};
ghost use Rattle.pm_schema.specs.declared.schema.TableSchema.{TableSchema};
ghost use Rattle.pm_store.specs.Answers.{Answers};
ghost use Rattle.pm_store.specs.declared.answer.Answer.{Answer};
ghost use Rattle.pm_store.specs.declared.call.Call.{Call};
ghost use Rattle.pm_store.specs.Files.{Files};
ghost use Rattle.pm_store.specs.Images.{MayLeave};
ghost use Rattle.pm_store.specs.Store.{StoreView};
ghost use Rattle.pm_read_log.specs.declared.log.Log.{Log as LogView};
ghost use Rattle.pm_read_table.specs.Meaning.{MayRefuse};
ghost use Rattle.pm_values.specs.declared.record.Stamped.{Stamped};
ghost use Rattle.pm_values.specs.declared.refusal.Refusal.{Refusal};
ghost use Rattle.pm_values.specs.declared.refusal.Refusal.TheVariants as refusals;
ghost use Rattle.pm_merged_log.specs.Merged.{merged_frame};
ghost use Rattle.pm_read_frame.specs.AllCalls.{DidFrame, ReadsFrames};
ghost use Rattle.pm_read_frame.specs.Frames.{AreFramesFrom, IsFrameOf, joined};
ghost use Rattle.pm_read_frame.specs.Meaning.{HasProducer, HasTaken, IsFrame, Knows};
ghost use Rattle.pm_read_frame.specs.Reader.{next_call, Shown};
ghost use Rattle.pm_read_frame.specs.declared.phase.Phase.{Phase};

use pm_avro_file::one_opening_law;
use pm_manifest::{Entry, ManifestMeta};
use pm_model_changelog::parts_law;
use pm_model_contents::one_contents_law;
use pm_model_following::kept_law;
use pm_read_log::log_causes_law;
use pm_record::one_reading_law;
use pm_run::{one_list_law, reading_law};
use pm_schema::{declared_law, schema_law};

/// What a reader of a frame knows stays true through each kind of change of every actor.
pub fn known_law()
    ensures { (m : Phase) (other : Actor) (f after : Files) (p q : Past) → Stands f p → Advances other f p after q
        → Knows m f p → Knows m after q }
{
    kept_law();
}

/// Whatever a crash leaves of its next call has the same content at each path.
pub fn images_law()
    ensures { (m : Phase) (call : Call) (f image : Files) (p : Past) → next_call m ≡ Some call
        → MayLeave call f image → IsKept f p image p }
{}

/// Whatever others do between its calls, a folder that stands shows it no refusal but that memory ran out, or that the
/// snapshot has gone. So E10 and E11 never come of such a folder.
pub fn causes_law()
    ensures { (m : Phase) (call : Call) (answer : Answer) (refusal : Refusal) (f : Files) (p : Past) → Stands f p
        → Knows m f p → next_call m ≡ Some call → Answers call answer f → Shown m answer refusal
        → MayRefuse f p refusal }
{
    log_causes_law();
    one_contents_law();
    one_list_law();
    reading_law();
}

/// The same calls show one answer at most, but that memory may have run out: so each refusal comes exactly where the
/// calls are those that it names; and after a call that failed it is that one.
pub fn one_answer_law()
    ensures one { (s : TableSchema) (id : ℕ) (own : List Event) (one other : Result (List ℕ) Refusal)
        → DidFrame s id one own → DidFrame s id other own
        → (one ≡ other) ⊎ ((one ≡ Err refusals.Memory) ⊎ (other ≡ Err refusals.Memory)) }
    ensures failed { (s : TableSchema) (id : ℕ) (earlier : List Event) (call : Call) (result : Result (List ℕ) Refusal)
        → DidFrame s id result (earlier ++ faulted call ∷ [])
        → (result ≡ Err refusals.Memory) ⊎ (result ≡ Err (refusals.StoreFault (path_of call))) }
{
    one_reading_law::<ManifestMeta>();
    one_reading_law::<Entry>();
    one_opening_law();
    one_list_law();
}

/// A frame that is known is one of the history from then on, however far it goes on; and behind frames up to a snapshot
/// comes that of the next one. Of a table with a producer such frames are, one after another, those of its snapshots
/// from the first of them on, of which none is left out and none isn't there.
pub fn frames_law()
    ensures known { (f : Files) (p : Past) (id : ℕ) (text : List ℕ) → Stands f p → IsFrame p id text
        → IsFrameOf p.history id text }
    ensures later { (h later : History) (id : ℕ) (texts : List (List ℕ)) → GoesOn h later → AreFramesFrom h id texts
        → AreFramesFrom later id texts }
    ensures next { (h : History) (id : ℕ) (texts : List (List ℕ)) (text : List ℕ) → AreFramesFrom h id texts
        → IsFrameOf h (id + length texts) text → AreFramesFrom h id (texts ++ text ∷ []) }
    ensures within { (s : TableSchema) (entries : List CommitView) (id : ℕ) (texts : List (List ℕ))
        → AreFramesFrom (table s entries) id texts → length texts ≤ suc (length entries) - id }
    ensures text { (s : TableSchema) (entries : List CommitView) (id : ℕ) (texts : List (List ℕ)) → HasProducer s
        → AreFramesFrom (table s entries) id texts
        → joined texts ≡ flat_map (frame s entries) (range_with_len id (length texts)) }
{
    kept_law();
}

/// Once all files of a changelog were read, their rows, merged by key, make the frame of its snapshot.
pub(crate) fn taken_law()
    ensures { (f : Files) (p : Past) (l : LogView) (rows : List Stamped) → Stands f p → HasTaken p l rows []
        → IsFrame p l.snapshot.id (merged_frame l.schema l.snapshot.id rows) }
{
    one_contents_law();
    one_list_law();
    reading_law();
    declared_law();
    schema_law();
    parts_law();
    kept_law();
}

/// What all calls show of a history that stands at the first of them, where nobody else acts from then on.
pub fn all_calls_law()
    ensures { (s : TableSchema) (id : ℕ) (result : Result (List ℕ) Refusal) (before after : StoreView)
        → 1 ≤ id → HasTrace (DidFrame s id result) before after → ReadsFrames s id before after result }
{
    one_reading_law::<ManifestMeta>();
    one_reading_law::<Entry>();
    one_opening_law();
    one_list_law();
    reading_law();
    declared_law();
    schema_law();
    parts_law();
    kept_law();
}
