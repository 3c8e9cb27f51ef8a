//! Laws of readers of files.

ghost use Rattle.std.specs.Prelude.{◌≡◌, ◌≤◌, ◌++◌, ℕ, List, [], Some, drop, take};
ghost use Rattle.pm_model_folder.specs.Changes.{Actor};
ghost use Rattle.pm_model_folder.specs.Ledger.{Advances, IsKnown, Past, Stands};
ghost use Rattle.pm_store.specs.Answers.{Answers};
ghost use Rattle.pm_store.specs.declared.answer.Answer.{Answer};
ghost use Rattle.pm_store.specs.declared.call.Call.{Call};
ghost use Rattle.pm_store.specs.Files.{Files};
ghost use Rattle.pm_store.specs.Images.{MayLeave};
ghost use Rattle.pm_machine.specs.Moves.{IsKept};
ghost use Rattle.pm_levels.specs.Runs.{RunView};
ghost use Rattle.pm_read_table.specs.Meaning.{MayRefuse};
ghost use Rattle.pm_read_table.specs.View.{runs_at};
ghost use Rattle.pm_read_table.specs.declared.view.View.{View};
ghost use Rattle.pm_schema.specs.declared.schema.TableSchema.{TableSchema};
ghost use Rattle.pm_values.specs.declared.group.Group.{Group};
ghost use Rattle.pm_values.specs.declared.refusal.Refusal.{Refusal};
ghost use Rattle.pm_scan_rows.specs.Group.{GroupRead};
ghost use Rattle.pm_group_files.specs.Chosen.{Chosen, chosen_of};
ghost use Rattle.pm_group_files.specs.Collected.{Collected, nothing_of};
ghost use Rattle.pm_group_files.specs.Jobs.{Wanted, all_wanted, whole_group};
ghost use Rattle.pm_group_files.specs.Meaning.{AreReadAs, HasTaken, IsChosen, IsTableView, Knows, StoodAt};
ghost use Rattle.pm_group_files.specs.Reader.{next_call, read_next, HandsOut, Shown};
ghost use Rattle.pm_group_files.specs.declared.job.Job.{Job};
ghost use Rattle.pm_group_files.specs.declared.phase.Phase.{Phase};

use pm_model_contents::{one_contents_law, one_runs_law};
use pm_run::{one_list_law, order_law};

/// What a reader of files knows stays true through each kind of change of every actor.
pub fn known_law()
    ensures { (a : Chosen) (m : Phase) (other : Actor) (f after : Files) (p q : Past) → Stands f p
        → Advances other f p after q → Knows a m f p → Knows a m after q }
{}

/// Whatever a crash leaves of its next call has the same content at each path.
pub fn images_law()
    ensures { (m : Phase) (call : Call) (f image : Files) (p : Past) → next_call m ≡ Some call
        → MayLeave call f image → IsKept f p image p }
{}

/// Whatever others do between its calls, a folder that stands shows it no refusal but those that a reader of the table
/// may give: that memory ran out, or that the snapshot has gone or never was.
pub fn causes_law()
    ensures { (a : Chosen) (m : Phase) (call : Call) (answer : Answer) (refusal : Refusal) (f : Files) (p : Past)
        → Stands f p → Knows a m f p → next_call m ≡ Some call → Answers call answer f → Shown m answer refusal
        → MayRefuse f p refusal }
{
    one_list_law();
    order_law();
    pm_run::reading_law();
}

/// What it knows where it begins, once what is asked for stood at the snapshot.
pub fn begins_law()
    ensures { (a : Chosen) (f : Files) (p : Past) → IsChosen p a → a.given ≡ []
        → Knows a (read_next a.id (nothing_of a.schema) (all_wanted a.schema a.groups)) f p }
{}

/// What it knows once it has handed out the groups that were whole.
pub fn handed_law()
    ensures { (a : Chosen) (m new : Phase) (groups : List GroupRead) (f : Files) (p : Past) → HandsOut m groups new
        → Knows a m f p → Knows (chosen_of a.schema a.id a.groups (a.given ++ groups)) new f p }
{}

/// Of the groups that are asked for the first are whole, and what was read of them, as it stood at the snapshot, is
/// what was handed out and then what wasn't. Once no file is left all groups are.
pub fn whole_law()
    ensures { (p : Past) (a : Chosen) (c : Collected) (left : List Job) → HasTaken p a c left
        → AreReadAs (p.stood a.id) a.schema a.groups left (a.given ++ c.groups) }
{
    one_list_law();
    order_law();
    pm_run::reading_law();
}

/// The runs of a group of a view of the table stood at its snapshot, which needs their files.
pub fn view_law()
    ensures { (f : Files) (p : Past) (v : View) (g : Group) (runs : List RunView) → Stands f p → IsTableView p v
        → runs_at v g ≡ Some runs → IsKnown p v.id × StoodAt p v.schema v.id (whole_group (g, runs)) }
{
    one_contents_law();
    one_runs_law();
}

/// Where all runs of a group stood, the newest of them did, and the files of the others may be kept beside them.
pub fn prefix_law()
    ensures newest { (p : Past) (s : TableSchema) (id : ℕ) (g : Group) (runs : List RunView) (n : ℕ)
        → StoodAt p s id (whole_group (g, runs)) → 1 ≤ n → StoodAt p s id (whole_group (g, take n runs)) }
    ensures kept { (p : Past) (s : TableSchema) (id : ℕ) (w : Wanted) (n : ℕ)
        → StoodAt p s id (whole_group (w.group, w.runs)) → 1 ≤ n
        → StoodAt p s id (record w { runs = take n w.runs; kept = drop n w.runs }) }
{}
