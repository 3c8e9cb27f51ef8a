//! Laws of readers of a view. Each holds with no call but of the laws of crates below.

ghost use Rattle.std.specs.Prelude.{◌≡◌, ◌⊎◌, ◌↔◌, ◌++◌, ℕ, ◌≤◌, List, Contains, Option, None, Some, IsSome};
ghost use Rattle.std.specs.FinMap as finite;
ghost use Rattle.pm_model_folder.specs.Changes.{Actor};
ghost use Rattle.pm_model_folder.specs.Entries.{AreLive};
ghost use Rattle.pm_model_folder.specs.Folder.{Folder};
ghost use Rattle.pm_model_folder.specs.Ledger.{Advances, Past, Stands};
ghost use Rattle.pm_model_folder.specs.Paths.{snapshot_folder, snapshot_path};
ghost use Rattle.pm_model_contents.specs.Lists.{none_live};
ghost use Rattle.pm_model_contents.specs.Named.{Contents, IsNamed};
ghost use Rattle.pm_model_history.specs.History.{table, Entry as CommitView, IsTableOf};
ghost use Rattle.pm_manifest.specs.Live.{live_after};
ghost use Rattle.pm_manifest.specs.declared.entry.Entry.{Entry as EntryView};
ghost use Rattle.pm_paths.specs.Ids.{AreIds};
ghost use Rattle.pm_schema.specs.declared.schema.TableSchema.{TableSchema};
ghost use Rattle.pm_snapshot.specs.Names.{greatest};
ghost use Rattle.pm_snapshot.specs.declared.snapshot.Snapshot.{Snapshot};
ghost use Rattle.pm_values.specs.declared.refusal.Refusal.{Refusal};
ghost use Rattle.pm_values.specs.declared.refusal.Refusal.TheVariants as refusals;
ghost use Rattle.pm_machine.specs.Moves.{IsKept};
ghost use Rattle.pm_machine.specs.Trace.{Event};
ghost use Rattle.pm_store.specs.Answers.{Answers};
ghost use Rattle.pm_store.specs.declared.answer.Answer.{Answer};
ghost use Rattle.pm_store.specs.declared.answer.Answer.TheVariants as answers;
ghost use Rattle.pm_store.specs.declared.call.Call.{Call};
ghost use Rattle.pm_store.specs.declared.call.Call.TheVariants as calls;
ghost use Rattle.pm_store.specs.Files.{Files, IsListing};
ghost use Rattle.pm_store.specs.Images.{MayLeave};
ghost use Rattle.pm_read_table.specs.Asked.{Asked};
ghost use Rattle.pm_read_table.specs.Meaning.{Knows, KnowsListed, MayRefuse};
ghost use Rattle.pm_read_table.specs.Named.{named_paths, parts_of};
ghost use Rattle.pm_read_table.specs.Reader.{next_call, Shown};
ghost use Rattle.pm_read_table.specs.Trace.{Shows};
ghost use Rattle.pm_read_table.specs.View.{live_entries};
ghost use Rattle.pm_read_table.specs.declared.phase.Phase.{Phase};
ghost use Rattle.pm_read_table.specs.declared.phase.Phase.TheVariants as phases;

use pm_manifest::{Entry, ManifestMeta, joined_law};
use pm_model_contents::one_contents_law;
use pm_record::one_reading_law;

/// What a reader knows stays true through each kind of change of every actor.
pub fn known_law()
    ensures { (m : Phase) (other : Actor) (f after : Files) (p q : Past) → Stands f p
        → Advances other f p after q → Knows m f p → Knows m after q }
{}

/// Where a file that the snapshot names was found absent, the snapshot is gone too when it is read again. So no folder
/// that stands is called damaged for an absent file.
pub fn absent_law()
    ensures { (a : Asked) (id : ℕ) (path : List ℕ) (found : Option (List ℕ)) (f : Files) (p : Past)
        → Knows (phases.Again a id path) f p
        → Answers (calls.Read (snapshot_path id)) (answers.Found found) f → found ≡ None }
{}

/// Whatever others do between its calls, a folder that stands shows a reader no refusal but that memory ran out, that
/// the snapshot that is asked for is above the newest, or that it has gone. So E10 and E11 never come of such a folder.
pub fn causes_law()
    ensures { (m : Phase) (call : Call) (answer : Answer) (refusal : Refusal) (f : Files) (p : Past) → Stands f p
        → Knows m f p → next_call m ≡ Some call → Answers call answer f → Shown m answer refusal
        → MayRefuse f p refusal }
{
    joined_law();
    one_reading_law::<ManifestMeta>();
    one_reading_law::<Entry>();
    one_contents_law();
}

/// The ids of a listing of a folder that stands are exactly those of the snapshots that are there, the origin left out.
pub fn listed_law()
    ensures { (f : Files) (s : TableSchema) (entries : List CommitView) (names : List (List ℕ)) (ids : List ℕ) (id : ℕ)
        → Folder f (table s entries) → AreIds names ids → IsListing snapshot_folder names f
        → Contains ids id ↔ ((1 ≤ id) × (id ≤ greatest) × IsSome (finite.get f (snapshot_path id))) }
{}

/// Of the snapshots up to the greatest that was listed, those that are there were listed, whatever others did since.
pub fn sought_law()
    ensures { (f : Files) (p : Past) (s : TableSchema) (ids : List ℕ) (id later : ℕ) → Stands f p
        → IsTableOf s p.history → KnowsListed f p ids → 1 ≤ id → id ≤ later → Contains ids later
        → IsSome (finite.get f (snapshot_path id)) → Contains ids id }
{}

/// The live entries are those of the files that are live after all entries, each once.
pub fn entries_law()
    ensures { (entries : List EntryView) → AreLive (live_after none_live entries) (live_entries entries) }
{}

/// The paths that are listed of a snapshot are exactly those that it names.
pub fn named_law()
    ensures { (s : TableSchema) (x : Snapshot) (c : Contents) (path : List ℕ)
        → Contains (named_paths s x (parts_of (c.base ++ c.delta) (live_entries c.entries) c.changelog c.changes)) path
        ↔ IsNamed s x c path }
{}

/// Whatever a crash leaves of a reader's next call has the same content at each path.
pub fn images_law()
    ensures { (m : Phase) (call : Call) (f image : Files) (p : Past) → next_call m ≡ Some call
        → MayLeave call f image → IsKept f p image p }
{}

/// The same calls of a reader that was asked the same show one refusal at most, but that memory may have run out. So
/// each other refusal comes exactly where the calls are those that it names.
pub fn one_refusal_law()
    ensures { (a : Asked) (own : List Event) (one other : Refusal) → Shows a one own → Shows a other own
        → (one ≡ other) ⊎ ((one ≡ refusals.Memory) ⊎ (other ≡ refusals.Memory)) }
{
    joined_law();
    one_reading_law::<ManifestMeta>();
    one_reading_law::<Entry>();
}
