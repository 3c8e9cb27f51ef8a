//! What a commit that was made becomes once it is published.

ghost use Rattle.std.specs.Prelude.{◌≡◌, suc, pos, int_lt, true, List, [], ◌∷◌, ◌++◌, length, None, Some};
ghost use Rattle.std.specs.FinMap as map;
ghost use Rattle.std.specs.List.{AllByRecursion};
ghost use Rattle.pm_store.specs.Files.{Files, Puts};
ghost use Rattle.pm_values.specs.declared.group.Group.{Group};
ghost use Rattle.pm_model_history.specs.History.{Entry};
ghost use Rattle.pm_schema.specs.declared.schema.TableSchema.{TableSchema};
ghost use Rattle.pm_model_folder.specs.Changes.{Actor, HavePlainNames, IsOwnFile, NamesOwn};
ghost use Rattle.pm_model_folder.specs.Commits.{live_in, IsCommit};
ghost use Rattle.pm_model_folder.specs.Entries.{fence_at};
ghost use Rattle.pm_model_folder.specs.Paths.{snapshot_path};
ghost use Rattle.pm_model_folder.specs.Stored.{HasGroup, HoldsChange};
ghost use Rattle.pm_put.specs.declared.putting.CommitFile.{CommitFile as FileView};
ghost use Rattle.pm_made.specs.Commit.{Attempt, IsAsMade, IsReady, MakesNames};
ghost use Rattle.pm_made.specs.Files.{IsMadeOf};

use pm_manifest::{id_law, joined_law, last_law, live_law, read_entry_law};
use pm_model_contents::{kept_law, one_contents_law};
use pm_snapshot::{path_law, snapshot_law};

/// Where the snapshot of a try that is ready appears after the newest, it and its lists are those that were made, live
/// are the files that its delta leaves and those that it adds, what the snapshot names and the one before it doesn't
/// was named by the actor, and its base is above the fence of the entries before it.
pub fn made_law()
    ensures { (me : Actor) (f after : Files) (s : TableSchema) (entries : List Entry) (e : Entry) (t : Attempt) →
        (ready : IsReady me f s entries e t) → map.get f (snapshot_path (suc (length entries))) ≡ None →
        Puts f (snapshot_path (suc (length entries))) (Some t.made.text) after →
        IsAsMade after s (suc (length entries)) t ready.made
        × NamesOwn me f after s (length entries)
        × (int_lt (fence_at entries (length entries)) (pos t.author.base) ≡ true) }
{
    kept_law();
    one_contents_law();
    id_law();
    joined_law();
    last_law();
    read_entry_law();
    live_law();
    snapshot_law();
}

/// So it adds its entry to the history, where each group's live files stand for the rows up to it, and its changelog
/// holds its change: these two are for whoever has the intent to show.
pub fn commit_law()
    ensures { (me : Actor) (f after : Files) (s : TableSchema) (entries : List Entry) (e : Entry) (t : Attempt) →
        (ready : IsReady me f s entries e t) → map.get f (snapshot_path (suc (length entries))) ≡ None →
        Puts f (snapshot_path (suc (length entries))) (Some t.made.text) after →
        (made : IsAsMade after s (suc (length entries)) t ready.made) →
        ((g : Group) → HasGroup after s (entries ++ e ∷ []) (suc (length entries)) (live_in made.contents) g) →
        HoldsChange after s (entries ++ e ∷ []) (suc (length entries)) made.contents.changes →
        IsCommit f after s entries e }
{
    kept_law();
    one_contents_law();
    path_law();
    snapshot_law();
}

/// The files of a commit are ones that its actor alone makes, among those that snapshots name, from the commit's base.
pub fn own_files_law()
    ensures { (me : Actor) (s : TableSchema) (t : Attempt) → HavePlainNames s → MakesNames me t →
        IsMadeOf s t.newest t.author t.intent t.names t.made →
        AllByRecursion (λ (file : FileView). IsOwnFile me t.author.base file.path) t.made.files.items }
{}
