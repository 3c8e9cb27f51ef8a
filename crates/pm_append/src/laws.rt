//! What a try to append becomes once it is published.

ghost use Rattle.std.specs.Prelude.{◌≡◌, suc, List, length, None, Some};
ghost use Rattle.std.specs.FinMap as map;
ghost use Rattle.pm_store.specs.Files.{Files, Puts};
ghost use Rattle.pm_values.specs.declared.group.Group.{Group};
ghost use Rattle.pm_model_history.specs.History.{Entry};
ghost use Rattle.pm_schema.specs.declared.schema.TableSchema.{TableSchema};
ghost use Rattle.pm_model_folder.specs.Changes.{Actor, NamesOwn};
ghost use Rattle.pm_model_folder.specs.Commits.{IsCommit};
ghost use Rattle.pm_model_folder.specs.Paths.{snapshot_path};
ghost use Rattle.pm_made.specs.Commit.{IsAsMade};
ghost use Rattle.pm_append.specs.Commit.{Grows, HasAppended, IsReady, Try, attempt_of, entry_of};

use pm_levels::newest_law;
use pm_made::{commit_law, made_law};
use pm_manifest::live_law;
use pm_model_changelog::{by_key_law, input_law, quiet_law};
use pm_model_contents::{kept_law, one_contents_law, one_runs_law};
use pm_model_folder::found_law;
use pm_run::order_law;
use pm_runs::goes_on_law;
use pm_snapshot::snapshot_law;
use pm_write::{batch_law, written_law};

/// A try that is ready, whose snapshot appears after the newest, appends its rows to the history; what the snapshot
/// names and the one before it doesn't was named by the actor; the snapshot and its lists are those that were made; its
/// delta adds files at level 0 alone, beside a base list of the newest snapshot's manifests, and its changelog files
/// tell each row once where the table passes its input on, and with other producers nothing is told of an append; and
/// each group's runs go on with one more where it has rows of the group.
pub fn append_law()
    ensures { (me : Actor) (f after : Files) (s : TableSchema) (entries : List Entry) (t : Try) →
        (ready : IsReady me f s entries t) → map.get f (snapshot_path (suc (length entries))) ≡ None →
        Puts f (snapshot_path (suc (length entries))) (Some t.made.text) after →
        IsCommit f after s entries (entry_of t)
        × NamesOwn me f after s (length entries)
        × IsAsMade after s (suc (length entries)) (attempt_of t) ready.made
        × HasAppended after s t.newest t.author (length t.rows)
        × ((g : Group) → Grows me f after s (length entries) g t.rows) }
{
    commit_law();
    found_law();
    goes_on_law();
    kept_law();
    made_law();
    one_contents_law();
    one_runs_law();
    newest_law();
    live_law();
    order_law();
    snapshot_law();
    batch_law();
    by_key_law();
    input_law();
    quiet_law();
    written_law();
}
