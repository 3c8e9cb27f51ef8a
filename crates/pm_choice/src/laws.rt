//! What holds of all choices.

ghost use Rattle.std.specs.Prelude.{◌≡◌, ◌≤◌, ◌++◌, ℕ, All, List, map};
ghost use Rattle.std.specs.List.{AllByRecursion};
ghost use Rattle.std.specs.List.Sorted.{IsStrictlySortedBy};
ghost use Rattle.pm_values.specs.GroupOrder.{group_cmp};
ghost use Rattle.pm_values.specs.declared.group.Group.{Group};
ghost use Rattle.pm_schema.specs.declared.schema.TableSchema.{TableSchema};
ghost use Rattle.pm_model_history.specs.History.{Entry};
ghost use Rattle.pm_engine.specs.Covers.{IsRising};
ghost use Rattle.pm_engine.specs.OfSchema.{meaning_of};
ghost use Rattle.pm_merge.specs.Merge.{AreStored};
ghost use Rattle.pm_manifest.specs.Live.{Live};
ghost use Rattle.pm_levels.specs.Picking.{top_of};
ghost use Rattle.pm_levels.specs.Runs.{RunView};
ghost use Rattle.pm_levels.specs.declared.choice.Asked.{Asked};
ghost use Rattle.pm_levels.specs.declared.choice.PickRule.{PickRule};
ghost use Rattle.pm_model_contents.specs.Runs.{AreRunsOf, IsLive};
ghost use Rattle.pm_runs.specs.Succession.{AreKnownAt, KnownRun, from_oldest};
ghost use Rattle.pm_choice.specs.Choice.{choices, group_of, removed_entries, HaveLevels, IsChosen, TellLive};
ghost use Rattle.pm_choice.specs.declared.choice.ChosenGroup.{ChosenGroup};

use pm_engine::own_kind_law;
use pm_levels::pick_law;
use pm_merge::merged_law;

/// Of rising groups those with a choice rise. What goes of each are the newest of its runs, to a level that lies
/// between them and the others; and that is the highest exactly where no run is left.
pub fn choices_law()
    ensures rising { (asked : Asked) (rule : PickRule) (groups : List (Group × List RunView)) →
        IsStrictlySortedBy group_cmp (map (λ e. e.0) groups) →
        IsStrictlySortedBy group_cmp (map group_of (choices asked rule groups)) }
    ensures each { (asked : Asked) (rule : PickRule) (groups : List (Group × List RunView)) → 1 ≤ rule.trigger →
        1 ≤ top_of rule → AllByRecursion (λ e. HaveLevels (top_of rule) e.1) groups →
        AllByRecursion (IsChosen rule) (choices asked rule groups) }
{
    pick_law();
}

/// Where the groups' runs are those of live files, what goes are the entries of live files, to their last field.
pub fn removed_law()
    ensures { (s : TableSchema) (live : Live) (chosen : List ChosenGroup) → TellLive s live →
        AllByRecursion (λ (c : ChosenGroup). AreRunsOf live c.group c.levels) chosen →
        AllByRecursion (IsLive live) (removed_entries s chosen) }
{}

/// Of the runs of a group that are known at a snapshot the newest ones, which go, are runs of stored rows of the table.
pub fn stored_law()
    ensures { (s : TableSchema) (g : Group) (entries : List Entry) (n : ℕ) (taken left : List KnownRun) →
        AreKnownAt s g entries n (taken ++ left) → All IsRising (from_oldest (taken ++ left)) →
        AreStored (meaning_of s) (from_oldest taken) }
{
    merged_law();
    own_kind_law();
}
