//! What holds of each compaction that was planned. Each law holds with no call.

ghost use Rattle.std.specs.Prelude.{◌≡◌, ◌≤◌, ℕ, suc, List, length, None, Some};
ghost use Rattle.std.specs.FinMap as map;
ghost use Rattle.std.specs.List.{AllByRecursion};
ghost use Rattle.pm_store.specs.Files.{Files, Puts};
ghost use Rattle.pm_values.specs.declared.group.Group.{Group};
ghost use Rattle.pm_model_history.specs.History.{Entry, table};
ghost use Rattle.pm_schema.specs.declared.schema.TableSchema.{TableSchema};
ghost use Rattle.pm_model_folder.specs.Changes.{Actor, HavePlainNames, IsOwnFile, NamesOwn};
ghost use Rattle.pm_model_folder.specs.Commits.{IsCommit};
ghost use Rattle.pm_model_folder.specs.Folder.{IsEntryAfter};
ghost use Rattle.pm_model_folder.specs.Ledger.{Advances, HasNamedNone, Past, Stands};
ghost use Rattle.pm_model_folder.specs.Paths.{snapshot_path};
ghost use Rattle.pm_put.specs.Meaning.{IsPut};
ghost use Rattle.pm_put.specs.declared.putting.CommitFile.{CommitFile as FileView};
ghost use Rattle.pm_made.specs.Commit.{Attempt, AreOwnFiles, IsAsMade, IsFullWithin, IsNewestOf, IsReady};
ghost use Rattle.pm_made.specs.Commit.{MayChange};
ghost use Rattle.pm_made.specs.Files.{IsMadeOf};
ghost use Rattle.pm_made.specs.declared.intent.Intent.TheVariants as intents;
ghost use Rattle.pm_made.specs.declared.intent.Plan.{Plan};
ghost use Rattle.pm_made.specs.declared.newest.Newest.{Newest};
ghost use Rattle.pm_compaction.specs.Compacted.{GoesOnWith, HasCompacted};
ghost use Rattle.pm_compaction.specs.Plan.{KnowsPlan};

use pm_changelog::group_log_law;
use pm_choice::stored_law;
use pm_compact::rewritten_law;
use pm_dedup::Deduplicate;
use pm_engine::MergeEngine;
use pm_levels::{newest_law, replaced_law};
use pm_made::{commit_law, made_law};
use pm_manifest::{id_law, joined_law, read_entry_law};
use pm_model_changelog::{full_log_law, log_law, lookup_log_law, quiet_law};
use pm_model_contents::{one_contents_law, one_runs_law, same_law};
use pm_schema::{declared_law, schema_law};
use pm_values::{names_law, order_law};

/// What a planned compaction knows stays so, whoever commits: it is of its base alone.
pub fn plan_law()
    ensures { (me other : Actor) (f after : Files) (p q : Past) (s : TableSchema) (base : ℕ) (plan : Plan)
        (given : List FileView) → Advances other f p after q → KnowsPlan me s base plan given p →
        KnowsPlan me s base plan given q }
{
    pm_model_folder::goes_on_law();
}

/// So it shows of a try by the plan what this needs to be ready: its base is a snapshot of the table, the files that
/// were made are the actor's, as they were created, the count of appends that it bears is within that of the newest
/// snapshot, and its delta's entries and its changelog files, as they are written, can stand in a manifest, and no two
/// that go, and no two that come, are of one file.
pub fn ready_law()
    ensures base { (me : Actor) (p : Past) (s : TableSchema) (entries : List Entry) (base : ℕ) (plan : Plan)
        (given : List FileView) → p.history ≡ table s entries → KnowsPlan me s base plan given p →
        base ≤ length entries }
    ensures own { (me : Actor) (p : Past) (s : TableSchema) (t : Attempt) (plan : Plan) (given : List FileView) →
        HavePlainNames s → KnowsPlan me s t.author.base plan given p → t.intent ≡ intents.Compact plan →
        AreOwnFiles me s t }
    ensures given { (me : Actor) (p : Past) (s : TableSchema) (base : ℕ) (plan : Plan) (given : List FileView) →
        HavePlainNames s → KnowsPlan me s base plan given p →
        AllByRecursion (λ (file : FileView). IsOwnFile me base file.path) given }
    ensures full { (me : Actor) (f : Files) (p : Past) (s : TableSchema) (entries : List Entry) (newest : Newest)
        (base : ℕ) (plan : Plan) (given : List FileView) → Stands f p → p.history ≡ table s entries →
        IsNewestOf f s entries newest → KnowsPlan me s base plan given p →
        IsFullWithin newest.snapshot (intents.Compact plan) }
    ensures change { (me : Actor) (f : Files) (p : Past) (s : TableSchema) (entries : List Entry) (base : ℕ)
        (t : Attempt) (plan : Plan) (given : List FileView) → Stands f p → p.history ≡ table s entries →
        KnowsPlan me s base plan given p → t.intent ≡ intents.Compact plan →
        (made : IsMadeOf s t.newest t.author t.intent t.names t.made) → MayChange s made.delta }
{
    pm_model_folder::appends_law();
    log_law();
    stored_law();
    joined_law();
    read_entry_law();
    one_contents_law();
    one_runs_law();
    same_law();
    schema_law();
    declared_law();
    names_law();
    order_law();
}

/// A try to compact by a plan that is ready, while the files that were made for it are there, adds its entry to the
/// history once its snapshot appears after the newest, whatever came since its base. What the snapshot names and the
/// one before it doesn't was named by the actor; the snapshot and its lists are those that were made, and its changelog
/// files hold its change, since what they tell was settled at the base; and each group's runs go on: they stay where
/// the plan hasn't the group, else at most one run stands in the place of those that were taken.
pub fn compaction_law()
    ensures { (me : Actor) (f after : Files) (p : Past) (s : TableSchema) (entries : List Entry) (e : Entry)
        (t : Attempt) (plan : Plan) (given : List FileView) → Stands f p → p.history ≡ table s entries →
        HasNamedNone me p → KnowsPlan me s t.author.base plan given p → AllByRecursion (IsPut f) given →
        t.intent ≡ intents.Compact plan → (ready : IsReady me f s entries e t) →
        map.get f (snapshot_path (suc (length entries))) ≡ None →
        Puts f (snapshot_path (suc (length entries))) (Some t.made.text) after →
        IsEntryAfter s entries e
        × IsCommit f after s entries e
        × NamesOwn me f after s (length entries)
        × IsAsMade after s (suc (length entries)) t ready.made
        × HasCompacted after s t.newest t.author plan
        × ((g : Group) → GoesOnWith after s entries e p g) }
{
    commit_law();
    made_law();
    rewritten_law();
    stored_law();
    replaced_law();
    newest_law();
    id_law();
    joined_law();
    read_entry_law();
    one_contents_law();
    one_runs_law();
    same_law();
    names_law();
    order_law();
    schema_law();
    declared_law();
    lookup_log_law();
    full_log_law();
    quiet_law();
    group_log_law();
    pm_model_folder::still_law();
    pm_runs::goes_on_law();
    <Deduplicate as MergeEngine>::droppable_law();
}
