//! Laws of readers of a changelog, and of the paths that a snapshot names. Each holds with no call but of laws of
//! crates below.

ghost use Rattle.std.specs.Prelude.{◌≡◌, ◌↔◌, ℕ, List, Contains, Some};
ghost use Rattle.pm_model_folder.specs.Commits.{Names};
ghost use Rattle.pm_model_folder.specs.Changes.{Actor};
ghost use Rattle.pm_model_folder.specs.Ledger.{Advances, Past, Stands};
ghost use Rattle.pm_machine.specs.Moves.{IsKept};
ghost use Rattle.pm_store.specs.Answers.{Answers};
ghost use Rattle.pm_store.specs.declared.answer.Answer.{Answer};
ghost use Rattle.pm_store.specs.declared.call.Call.{Call};
ghost use Rattle.pm_store.specs.Files.{Files};
ghost use Rattle.pm_store.specs.Images.{MayLeave};
ghost use Rattle.pm_read_log.specs.LogMeaning.{IsLogIn, Knows};
ghost use Rattle.pm_read_log.specs.LogReader.{next_call, Shown};
ghost use Rattle.pm_read_table.specs.Named.{named_paths, parts_of};
ghost use Rattle.pm_read_log.specs.declared.log.Log.{Log as LogView};
ghost use Rattle.pm_schema.specs.declared.schema.TableSchema.{TableSchema};
ghost use Rattle.pm_snapshot.specs.declared.snapshot.Snapshot.{Snapshot};
ghost use Rattle.pm_read_table.specs.Asked.{KeepsEntries};
ghost use Rattle.pm_read_table.specs.Meaning.{IsViewIn, MayRefuse};
ghost use Rattle.pm_read_table.specs.declared.view.View.{View as ViewView};
ghost use Rattle.pm_read_log.specs.declared.log_phase.LogPhase.{LogPhase};
ghost use Rattle.pm_values.specs.declared.refusal.Refusal.{Refusal};

use pm_manifest::{Entry, ManifestMeta};
use pm_model_contents::one_contents_law;
use pm_record::one_reading_law;

/// What a reader of a changelog knows stays true through each kind of change of every actor.
pub fn log_known_law()
    ensures { (m : LogPhase) (other : Actor) (f after : Files) (p q : Past) → Stands f p
        → Advances other f p after q → Knows m f p → Knows m after q }
{}

/// Whatever others do between its calls, a folder that stands shows a reader of a changelog no refusal but that memory
/// ran out, or that the snapshot has gone.
pub fn log_causes_law()
    ensures { (m : LogPhase) (call : Call) (answer : Answer) (refusal : Refusal) (f : Files) (p : Past) → Stands f p
        → Knows m f p → next_call m ≡ Some call → Answers call answer f → Shown m answer refusal
        → MayRefuse f p refusal }
{
    one_reading_law::<ManifestMeta>();
    one_reading_law::<Entry>();
}

/// Whatever a crash leaves of its next call has the same content at each path.
pub fn log_images_law()
    ensures { (m : LogPhase) (call : Call) (f image : Files) (p : Past) → next_call m ≡ Some call
        → MayLeave call f image → IsKept f p image p }
{}

/// Of a view with its live entries and of a changelog, both of one snapshot as it stood, the paths that are listed are
/// exactly those that the snapshot named.
pub fn whole_law()
    ensures { (p : Past) (v : ViewView) (l : LogView) (path : List ℕ) → IsViewIn p v → IsLogIn p l
        → KeepsEntries v.wanted → v.snapshot ≡ Some l.snapshot → v.schema ≡ l.schema
        → Contains (named_paths l.schema l.snapshot
        (parts_of v.manifests.items v.live.items l.manifests.items l.changes.items)) path
        ↔ Names (p.stood l.snapshot.id) l.schema l.snapshot.id path }
{
    one_contents_law();
}
