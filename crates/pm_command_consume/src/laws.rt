//! What the calls of a following with a consumer say of a history.

ghost use Rattle.std.specs.Prelude.{List, Option, Some, [], ◌++◌, ◌∷◌, ◌≡◌, ◌⊎◌};
ghost use Rattle.std.specs.FinMap.{FinMap};
ghost use Rattle.pm_base.specs.Faults.{Rose};
ghost use Rattle.pm_io.specs.Sink.{SinkFailed, SinkView};
ghost use Rattle.pm_machine.specs.Step.{path_of};
ghost use Rattle.pm_machine.specs.Trace.{Event, faulted};
ghost use Rattle.pm_store.specs.declared.call.Call.{Call};
ghost use Rattle.pm_store.specs.Store.{StoreView};
ghost use Rattle.pm_values.specs.Order.{key_cmp, Values};
ghost use Rattle.pm_values.specs.declared.refusal.Refusal.{Refusal};
ghost use Rattle.pm_values.specs.declared.refusal.Refusal.TheVariants as refusals;
ghost use Rattle.pm_schema.specs.declared.schema.TableSchema.{TableSchema};
ghost use Rattle.pm_model_history.specs.Merge.{HistoryRow};
ghost use Rattle.pm_model_following.specs.Following.{replay};
ghost use Rattle.pm_command_follow.specs.Answer.{IsUnshown};
ghost use Rattle.pm_command_consume.specs.Alone.{AnswersTable, Beginning, ConsumesAny};
ghost use Rattle.pm_command_consume.specs.Complete.{MayHandOutAll, PrintsAll};
ghost use Rattle.pm_command_consume.specs.Consume.{Ends, HasConsumed, IsConsuming};
ghost use Rattle.pm_command_consume.specs.declared.consuming.Consuming.{Consuming};

use pm_avro_file::one_opening_law;
use pm_manifest::{Entry, ManifestMeta, joined_law};
use pm_model_contents::one_runs_law;
use pm_record::one_reading_law;
use pm_register::causes_law;
use pm_run::one_list_law;
use pm_schema::{declared_law, schema_law};
use pm_snapshot::consumer_law;

/// What is promised of histories follows from the calls of the store and what the sink took.
pub fn consume_law()
    ensures { (c : Consuming) (out out_after : SinkView) (store store_after : StoreView) (answer : Option Refusal)
        → IsConsuming c → HasConsumed c out out_after store store_after answer
        → ConsumesAny c out out_after store store_after answer }
{
    pm_read_latest::all_calls_law();
    pm_read_consumer::all_calls_law();
    pm_register::all_calls_law();
    pm_move_consumer::moves_law();
    pm_scan::all_calls_law();
    pm_read_frame::all_calls_law();
    consumer_law();
    schema_law();
    declared_law();
}

/// Where the snapshots that it has to print are there, of a table that tells its changes, with a consumer that is
/// settled or a start that isn't too high and that no floor exceeds, and no fault of the store or of the sink was
/// counted, all is handed out, or memory ran out.
pub fn complete_law()
    ensures { (c : Consuming) (b : Beginning) (first last : StoreView) (before after : SinkView)
        (answer : Option Refusal) → AnswersTable c b first last before after answer → MayHandOutAll c b
        → (Rose first.faults last.faults → ⊥) → (SinkFailed before after → ⊥)
        → PrintsAll c b before after answer }
{}

/// Rows that are replayed twice in a row leave what they leave once, whatever table they come to. So a frame that was
/// printed and not moved past may be printed again.
pub fn twice_law()
    ensures { (s : TableSchema) (table : FinMap key_cmp Values) (rows : List HistoryRow)
        → replay s table (rows ++ rows) ≡ replay s table rows }
{}

/// The same calls show one answer at most, but that memory may have run out and that the sink may have failed. So each
/// other refusal comes exactly where the calls are those that it names, and that all was handed out where none is left;
/// and after a call that failed it is that one.
pub fn one_answer_law()
    ensures one { (c : Consuming) (own : List Event) (before after first last : SinkView) (one other : Option Refusal)
        → Ends c before after own one → Ends c first last own other
        → (one ≡ other) ⊎ (IsUnshown one ⊎ IsUnshown other) }
    ensures failed { (c : Consuming) (earlier : List Event) (call : Call) (before after : SinkView)
        (answer : Option Refusal) → Ends c before after (earlier ++ faulted call ∷ []) answer
        → IsUnshown answer ⊎ (answer ≡ Some (refusals.StoreFault (path_of call))) }
{
    causes_law();
    joined_law();
    one_reading_law::<ManifestMeta>();
    one_reading_law::<Entry>();
    one_runs_law();
    one_opening_law();
    one_list_law();
}
