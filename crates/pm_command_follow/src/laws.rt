//! What the calls of `follow` say of a history, and what its frames are for.

ghost use Rattle.std.specs.Prelude.{◌≡◌, ◌⊎◌, Bool, ℕ, suc, ◌≤◌, List, [], ◌∷◌, ◌++◌, length, Option, Some};
ghost use Rattle.pm_base.specs.Faults.{Rose};
ghost use Rattle.pm_io.specs.Sink.{SinkFailed, SinkView};
ghost use Rattle.pm_machine.specs.Step.{path_of};
ghost use Rattle.pm_machine.specs.Trace.{Event, faulted};
ghost use Rattle.pm_store.specs.declared.call.Call.{Call};
ghost use Rattle.pm_store.specs.Store.{StoreView};
ghost use Rattle.pm_values.specs.declared.refusal.Refusal.{Refusal};
ghost use Rattle.pm_values.specs.declared.refusal.Refusal.TheVariants as refusals;
ghost use Rattle.pm_options.specs.declared.kinds.Producer.TheVariants.{Input};
ghost use Rattle.pm_schema.specs.declared.schema.TableSchema.{TableSchema};
ghost use Rattle.pm_model_history.specs.History.{Entry as Commit, rows_up_to, table};
ghost use Rattle.pm_model_history.specs.Merged.{scan_text};
ghost use Rattle.pm_model_following.specs.Following.{IsFinished, table_text};
ghost use Rattle.pm_model_folder.specs.Folder.{HasTable};
ghost use Rattle.pm_read_frame.specs.Frames.{joined};
ghost use Rattle.pm_store.specs.Files.{Files};
ghost use Rattle.pm_command_follow.specs.Answer.{IsUnshown};
ghost use Rattle.pm_command_follow.specs.Beside.{ArePieces, IsFirstOf};
ghost use Rattle.pm_command_follow.specs.Complete.{MayPrintAll, PrintsAll};
ghost use Rattle.pm_command_follow.specs.Finished.{HasPassedAll};
ghost use Rattle.pm_command_follow.specs.Follow.{Ends, FollowsAny, FollowsTable, IsFollowed, MayStartAt, TellsChanges};
ghost use Rattle.pm_command_follow.specs.Printed.{LeadFrom, LeadOn, count_from, follow_text, frames_text, start_of};
ghost use Rattle.pm_command_follow.specs.Printed.{table_head};

use pm_avro_file::one_opening_law;
use pm_manifest::{Entry, ManifestMeta, joined_law};
use pm_model_contents::one_runs_law;
use pm_model_following::{finished_law, frames_law, kept_law};
use pm_model_history::merged_table_law;
use pm_record::one_reading_law;
use pm_rows::{line_law, round_trip_law};
use pm_run::one_list_law;
use pm_schema::{declared_law, schema_law};

/// What is promised of histories follows from the calls of the store and what the sink took.
pub fn follow_law()
    ensures { (from : Option ℕ) (full : Bool) (out out_after : SinkView) (store store_after : StoreView)
        (answer : Option Refusal) → IsFollowed from full out out_after store store_after answer
        → FollowsAny from full out out_after store store_after answer }
{
    pm_read_latest::all_calls_law();
    pm_scan::all_calls_law();
    pm_read_frame::all_calls_law();
    schema_law();
    declared_law();
}

/// Whoever replays the rows of the frames from one snapshot to another, in order, on the table that was followed before
/// them has the table that is followed at the last. All that is printed is the starting table, if it is asked for, and
/// such frames. Where a snapshot is finished, the table that is followed at it is the merged one, which a scan of that
/// snapshot prints; and so are the starting table's rows printed. It is where all rows up to it are passed on; with the
/// producer of inputs they always are, and each snapshot is finished.
pub fn replay_law()
    ensures replayed { (f : Files) (s : TableSchema) (entries : List Commit) (start last : ℕ) → HasTable f s entries
        → TellsChanges s → 1 ≤ start → start ≤ suc last
        → LeadOn s entries start last (frames_text s entries start (count_from start last)) }
    ensures printed { (f : Files) (s : TableSchema) (entries : List Commit) (from : Option ℕ) (full : Bool)
        → HasTable f s entries → MayStartAt s entries from → 1 ≤ start_of from (length entries)
        → LeadFrom s entries from full (follow_text s entries from full) }
    ensures finished { (f : Files) (s : TableSchema) (entries : List Commit) (last : ℕ) → HasTable f s entries
        → last ≤ length entries → HasPassedAll s entries last → IsFinished s entries last }
    ensures input { (s : TableSchema) (entries : List Commit) (last : ℕ) → s.options.producer ≡ Input
        → HasPassedAll s entries last }
    ensures scanned { (s : TableSchema) (entries : List Commit) (last : ℕ) → s.options.producer ≡ Input
        → IsFinished s entries last }
    ensures starting { (s : TableSchema) (entries : List Commit) (id : ℕ) → IsFinished s entries id
        → table_text s entries id ≡ table_head id ++ scan_text s (rows_up_to entries id) }
{
    round_trip_law();
    line_law();
    merged_table_law();
    frames_law();
    finished_law();
    kept_law();
    schema_law();
    declared_law();
}

/// Where the snapshots that it has to print are there, from a start that isn't too high, of a table that tells its
/// changes, and no fault of the store or of the sink was counted, all is printed, or memory ran out.
pub fn complete_law()
    ensures { (s : TableSchema) (entries : List Commit) (from : Option ℕ) (full : Bool) (first last : StoreView)
        (before after : SinkView) (answer : Option Refusal)
        → FollowsTable (table s entries) from full first last before after answer
        → MayPrintAll s entries from full first → (Rose first.faults last.faults → ⊥) → (SinkFailed before after → ⊥)
        → PrintsAll s entries from full first before after answer }
{}

/// Whatever others do meanwhile, pieces that were each known of the history as it was then are a prefix of what is
/// printed of the history from their start on, however far it has gone on: no frame between them is left out, and none
/// is there of a snapshot that the history hasn't. Where they are as many as there are up to the newest snapshot of a
/// listing, they are all that is printed of the table as it was at that listing.
pub fn pieces_law()
    ensures first { (s : TableSchema) (entries : List Commit) (full : Bool) (start : ℕ) (first : List ℕ)
        (frames : List (List ℕ)) → TellsChanges s → ArePieces (table s entries) full start first frames
        → IsFirstOf s entries full start (length frames) (first ++ joined frames) }
    ensures all { (f : Files) (s : TableSchema) (entries more : List Commit) (full : Bool) (start : ℕ) (first : List ℕ)
        (frames : List (List ℕ)) → HasTable f s entries → TellsChanges s → start ≤ suc (length entries)
        → ArePieces (table s (entries ++ more)) full start first frames
        → length frames ≡ count_from start (length entries)
        → first ++ joined frames ≡ follow_text s entries (Some start) full }
{
    pm_read_frame::frames_law();
    kept_law();
}

/// The same calls show one answer at most, but that memory may have run out and that the sink may have failed. So each
/// other refusal comes exactly where the calls are those that it names, and that all was printed where none is left;
/// and after a call that failed it is that one.
pub fn one_answer_law()
    ensures one { (from : Option ℕ) (full : Bool) (own : List Event) (before after first last : SinkView)
        (one other : Option Refusal) → Ends from full before after own one → Ends from full first last own other
        → (one ≡ other) ⊎ (IsUnshown one ⊎ IsUnshown other) }
    ensures failed { (from : Option ℕ) (full : Bool) (earlier : List Event) (call : Call) (before after : SinkView)
        (answer : Option Refusal) → Ends from full before after (earlier ++ faulted call ∷ []) answer
        → IsUnshown answer ⊎ (answer ≡ Some (refusals.StoreFault (path_of call))) }
{
    joined_law();
    one_reading_law::<ManifestMeta>();
    one_reading_law::<Entry>();
    one_runs_law();
    one_opening_law();
    one_list_law();
}
