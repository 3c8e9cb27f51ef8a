//! Laws of scanners.

ghost use Rattle.std.specs.Prelude.{◌≡◌, ◌⊎◌, List, [], ◌∷◌, ◌++◌, ℕ, Option, Some, Result, Err};
ghost use Rattle.pm_engine.specs.OfSchema.{meaning_of};
ghost use Rattle.pm_schema.specs.declared.schema.TableSchema.{TableSchema};
ghost use Rattle.pm_scan_rows.specs.Group.{runs_read};
ghost use Rattle.pm_scan_rows.specs.Shown.{PrintsGroups};
ghost use Rattle.pm_model_folder.specs.Changes.{Actor};
ghost use Rattle.pm_model_folder.specs.Ledger.{Advances, Past, Stands};
ghost use Rattle.pm_store.specs.Answers.{Answers};
ghost use Rattle.pm_store.specs.declared.answer.Answer.{Answer};
ghost use Rattle.pm_store.specs.declared.call.Call.{Call};
ghost use Rattle.pm_store.specs.Files.{Files};
ghost use Rattle.pm_store.specs.Images.{MayLeave};
ghost use Rattle.pm_read_table.specs.Meaning.{MayRefuse};
ghost use Rattle.pm_read_table.specs.declared.view.View.{View};
ghost use Rattle.pm_machine.specs.Moves.{IsKept};
ghost use Rattle.pm_machine.specs.Step.{path_of};
ghost use Rattle.pm_machine.specs.Trace.{Event, HasTrace, faulted};
ghost use Rattle.pm_schema.specs.Again.{IsDeclared};
ghost use Rattle.pm_store.specs.Store.{StoreView};
ghost use Rattle.pm_values.specs.declared.refusal.Refusal.{Refusal};
ghost use Rattle.pm_values.specs.declared.refusal.Refusal.TheVariants as refusals;
ghost use Rattle.pm_scan.specs.AllCalls.{DidScan, Ends, PassesOf, PrintAlike, ScansOf, ScansTables};
ghost use Rattle.pm_scan.specs.Asked.{asked_at, passed_at};
ghost use Rattle.pm_group_files.specs.Collected.{Collected, HaveTaken, nothing_of};
ghost use Rattle.pm_group_files.specs.Meaning.{IsChosen, IsTableView};
ghost use Rattle.pm_group_files.specs.declared.job.Job.{Job};
ghost use Rattle.pm_scan.specs.Meaning.{all_of, IsScanOf, Knows};
ghost use Rattle.pm_scan.specs.Scanner.{jobs_of, next_call, Shown};
ghost use Rattle.pm_scan.specs.declared.phase.Phase.{Phase};
ghost use Rattle.pm_scan.specs.declared.rows.Rows.{Rows};

use pm_avro_file::one_opening_law;
use pm_group_files::view_law;
use pm_manifest::{Entry, ManifestMeta, joined_law};
use pm_model_changelog::passed_law;
use pm_model_contents::{one_contents_law, one_runs_law};
use pm_model_following::{kept_law, start_law};
use pm_record::one_reading_law;
use pm_run::{one_list_law, order_law};
use pm_scan_rows::scan_law;
use pm_schema::{declared_law, schema_law};

/// What a scanner knows stays true through each kind of change of every actor.
pub fn known_law()
    ensures { (m : Phase) (other : Actor) (f after : Files) (p q : Past) → Stands f p → Advances other f p after q
        → Knows m f p → Knows m after q }
{
    kept_law();
}

/// Whatever a crash leaves of a scanner's next call has the same content at each path.
pub fn images_law()
    ensures { (m : Phase) (call : Call) (f image : Files) (p : Past) → next_call m ≡ Some call
        → MayLeave call f image → IsKept f p image p }
{}

/// Whatever others do between its calls, a folder that stands shows a scanner no refusal but that memory ran out, that
/// the snapshot that is asked for is above the newest, or that it has gone. So E10 and E11 never come of such a folder.
pub fn causes_law()
    ensures { (m : Phase) (call : Call) (answer : Answer) (refusal : Refusal) (f : Files) (p : Past) → Stands f p
        → Knows m f p → next_call m ≡ Some call → Answers call answer f → Shown m answer refusal
        → MayRefuse f p refusal }
{
    pm_read_table::causes_law();
    pm_group_files::causes_law();
}

/// The same calls of a scan show one answer at most, but that memory may have run out, and that their text is one of
/// those that the same runs print. So each refusal comes exactly where the calls are those that it names; and after a
/// call that failed it is that one.
pub fn one_answer_law()
    ensures one { (s : TableSchema) (at : Option ℕ) (own : List Event) (one other : Result (List ℕ) Refusal)
        → DidScan s at one own → DidScan s at other own
        → (one ≡ other)
        ⊎ ((one ≡ Err refusals.Memory) ⊎ ((other ≡ Err refusals.Memory) ⊎ PrintAlike one other)) }
    ensures failed { (s : TableSchema) (at : Option ℕ) (earlier : List Event) (call : Call)
        (result : Result (List ℕ) Refusal) → DidScan s at result (earlier ++ faulted call ∷ [])
        → (result ≡ Err refusals.Memory) ⊎ (result ≡ Err (refusals.StoreFault (path_of call))) }
{
    joined_law();
    one_reading_law::<ManifestMeta>();
    one_reading_law::<Entry>();
    one_runs_law();
    one_opening_law();
    one_list_law();
}

/// What is known of a view and of its files, whatever others do: its groups, if there are any, stood at the snapshot,
/// which needs their files; and once all were read that have the rows, what they print is the scan of these.
pub(crate) fn files_law()
    ensures chosen { (rows : Rows) (f : Files) (p : Past) (v : View) (job : Job) (jobs : List Job) → Stands f p
        → IsTableView p v → jobs_of rows v ≡ job ∷ jobs → IsChosen p (all_of rows v) }
    ensures all { (rows : Rows) (f : Files) (p : Past) (v : View) → Stands f p → IsTableView p v → (c : Collected)
        (text : List ℕ) → HaveTaken (p.stood v.id) (jobs_of rows v) (nothing_of v.schema) c
        → PrintsGroups (meaning_of c.schema) (runs_read c.groups) text → IsScanOf rows p v.id text }
{
    view_law();
    declared_law();
    schema_law();
    one_contents_law();
    one_runs_law();
    one_list_law();
    order_law();
    pm_run::reading_law();
    scan_law();
    passed_law();
    kept_law();
    start_law();
}

/// What all calls of a scan show of a history that stands at the first of them, where nobody else acts from then on;
/// and what those after the schema show of a history of its table, whatever was read before.
pub fn all_calls_law()
    ensures scan { (s : TableSchema) (at : Option ℕ) (result : Result (List ℕ) Refusal) (before after : StoreView)
        → IsDeclared s → HasTrace (DidScan s at result) before after → ScansTables s at before after result }
    ensures own { (s : TableSchema) (at : Option ℕ) (result : Result (List ℕ) Refusal) (before after : StoreView)
        → IsDeclared s → HasTrace (Ends (asked_at s at) result) before after → ScansOf s at before after result }
    ensures passed { (s : TableSchema) (id : ℕ) (result : Result (List ℕ) Refusal) (before after : StoreView)
        → IsDeclared s → HasTrace (Ends (passed_at s id) result) before after → PassesOf s id before after result }
{
    joined_law();
    one_reading_law::<ManifestMeta>();
    one_reading_law::<Entry>();
    one_contents_law();
    one_runs_law();
    one_list_law();
    order_law();
    pm_run::reading_law();
    scan_law();
    passed_law();
    kept_law();
    start_law();
}
