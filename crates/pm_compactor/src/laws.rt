//! Laws of compactors.

ghost use Rattle.std.specs.Prelude.{◌≡◌, ◌<◌, IsSome, Some, Result};
ghost use Rattle.pm_values.specs.declared.refusal.Refusal.{Refusal};
ghost use Rattle.pm_store.specs.Answers.{Answers};
ghost use Rattle.pm_store.specs.Files.{Files};
ghost use Rattle.pm_store.specs.Images.{MayLeave};
ghost use Rattle.pm_store.specs.Store.{StoreView};
ghost use Rattle.pm_store.specs.declared.answer.Answer.{Answer};
ghost use Rattle.pm_store.specs.declared.call.Call.{Call};
ghost use Rattle.pm_machine.specs.Moves.{Sound};
ghost use Rattle.pm_machine.specs.Running.{Refuses, Stops};
ghost use Rattle.pm_machine.specs.Step.{Stepped};
ghost use Rattle.pm_machine.specs.Trace.{Recounts};
ghost use Rattle.pm_model_folder.specs.Changes.{Actor};
ghost use Rattle.pm_model_folder.specs.Ledger.{Advances, Past, Stands};
ghost use Rattle.pm_compactor.specs.Alone.{CompactorAlone};
ghost use Rattle.pm_compactor.specs.Compactor.{calls_left, next_call, reached_at, Goes};
ghost use Rattle.pm_compactor.specs.Compactor.{GoesOn, IsCompactor, Reaches, Shown};
ghost use Rattle.pm_compactor.specs.Meaning.{IsOtherThan, Knows, Leaves, MayRefuse};
ghost use Rattle.pm_compactor.specs.Trace.{AskedOf, Did, Shows};
ghost use Rattle.pm_compactor.specs.declared.phase.Phase.{Phase};
ghost use Rattle.pm_compactor.specs.declared.phase.Phase.TheVariants as phases;

use pm_append::append_law;
use pm_choice::{choices_law, stored_law};
use pm_commit::{begins_law, held_law};
use pm_compaction::{compaction_law, plan_law, ready_law};
use pm_group_files::{prefix_law, view_law, whole_law};
use pm_group_log::known_log_law;
use pm_made::own_files_law;
use pm_manifest::{Entry, ManifestMeta, joined_law, read_entry_law};
use pm_model_contents::{one_contents_law, one_runs_law, same_law};
use pm_model_folder::unnamed_law;
use pm_plan::planned_law;
use pm_read_table::{entries_law, named_law};
use pm_record::one_reading_law;
use pm_run::one_list_law;
use pm_snapshot::path_law;

/// A compactor keeps the laws of machines.
pub(crate) fn machine_law()
    ensures sound { Sound next_call Goes (Refuses Shown phases.Over) (Stops phases.Over) Stands Leaves Knows }
    ensures recounts { (a : AskedOf)
        → Recounts next_call Goes (Refuses Shown phases.Over) (Stops phases.Over) (Did a) (Shows a) }
{
    joined_law();
    one_reading_law::<ManifestMeta>();
    read_entry_law();
    compactor_law();
    view_law();
    prefix_law();
    whole_law();
    choices_law();
    stored_law();
    one_contents_law();
    one_runs_law();
    one_list_law();
    known_log_law();
    planned_law();
    held_law();
    begins_law();
}

/// What an answer leads to is a compactor, with a call less, and with one left where it goes on.
pub(crate) fn compactor_law()
    ensures still { (m : Phase) (answer : Answer) (later : Phase) → IsCompactor m → Goes m answer later
        → IsCompactor later }
    ensures goes { (m : Phase) (answer : Answer) (later : Phase) → IsCompactor m → Goes m answer later
        → (calls_left later < calls_left m) × Reaches (reached_at later) later × GoesOn m later }
    ensures has_call { (m : Phase) → IsCompactor m → 0 < calls_left m → IsSome (next_call m) }
{
    read_entry_law();
    held_law();
}

/// What a compactor knows stays true through each kind of change of every other actor.
pub fn known_law()
    ensures { (m : Phase) (other : Actor) (f after : Files) (p q : Past) → Stands f p → Advances other f p after q
        → IsOtherThan other m → Knows m f p → Knows m after q }
{
    planned_law();
    unnamed_law();
    begins_law();
    pm_commit::known_law();
}

/// Whatever others do between its calls, a folder that stands shows a compactor no refusal but that memory ran out;
/// that a snapshot has gone; that a name that is listed has its actor's mark, or a file was there; that the newest
/// snapshot has fenced its base, or a file that goes is live no more, or it leaves no room; or that eleven tries were
/// lost. So E10 and E11 never come of such a folder, of no file in which an old value is looked up either, and of its
/// own view only that this leaves no room for what was made.
pub fn causes_law()
    ensures { (m : Phase) (call : Call) (answer : Answer) (refusal : Refusal) (f : Files) (p : Past) → Stands f p
        → Knows m f p → next_call m ≡ Some call → Answers call answer f → Shown m answer refusal
        → MayRefuse m f p refusal }
{
    pm_commit::causes_law();
    pm_group_files::causes_law();
    pm_read_table::causes_law();
    one_contents_law();
    one_list_law();
    entries_law();
    whole_law();
    known_log_law();
    planned_law();
}

/// Whatever a crash leaves of a compactor's next call is one of its changes, or none.
pub fn images_law()
    ensures { (m : Phase) (call : Call) (f image : Files) (p : Past) → Stands f p → Knows m f p
        → next_call m ≡ Some call → MayLeave call f image → (q : Past) × Leaves m f p image q }
{
    machine_law();
}

/// What a compactor knows stays true from call to call where nobody else acts.
pub(crate) fn alone_law()
    ensures { (old new : Phase) (before after : StoreView) (result : Result (Unit {0}) Refusal)
        → Stepped next_call Goes (Refuses Shown phases.Over) (Stops phases.Over) old new before after result
        → CompactorAlone old new before after result }
{
    machine_law();
    causes_law();
    joined_law();
    one_reading_law::<ManifestMeta>();
    read_entry_law();
    one_contents_law();
    one_runs_law();
    same_law();
    named_law();
    entries_law();
    pm_model_folder::newest_law();
    unnamed_law();
    append_law();
    plan_law();
    ready_law();
    compaction_law();
    own_files_law();
    path_law();
    begins_law();
    whole_law();
    pm_group_files::begins_law();
    pm_read_table::causes_law();
}
