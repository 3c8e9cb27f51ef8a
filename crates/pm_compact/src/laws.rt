//! What holds of the files of a compaction, whatever made them.

ghost use Rattle.std.specs.Prelude.{◌≡◌, ◌≢◌, ◌↔◌, ◌⊎◌, ℕ, ◌≤◌, List, [], Bool, true, length, map};
ghost use Rattle.std.specs.List.{AllByRecursion};
ghost use Rattle.pm_schema.specs.declared.schema.TableSchema.{TableSchema};
ghost use Rattle.pm_values.specs.Names.{Naming};
ghost use Rattle.pm_engine.specs.Covers.{Run};
ghost use Rattle.pm_engine.specs.Meaning.{DropsNoEffect, Meaning};
ghost use Rattle.pm_engine.specs.OfSchema.{meaning_of};
ghost use Rattle.pm_merge.specs.Merging.{runs_in};
ghost use Rattle.pm_merge.specs.Source.{Rest};
ghost use Rattle.pm_run.specs.declared.run.RunFile.{RunFile};
ghost use Rattle.pm_runs.specs.Stand.{top_of};
ghost use Rattle.pm_runs.specs.Succession.{KnownRun, MayTakePlace, from_oldest};
ghost use Rattle.pm_compact.specs.Made.{IsMadeAt, IsRunOf, TakesPlace, made_run};
ghost use Rattle.pm_compact.specs.Rewritten.{AreRewritten, DropsByKind, IsRewritten};

use pm_merge::{oldest_law, replaces_law};
use pm_runs::made_law;

/// Whether a stored row of a table is droppable depends on its kind alone.
pub fn drops_by_kind_law()
    ensures { (s : TableSchema) → DropsByKind (meaning_of s) }
{}

/// The run that runs become takes their place, and is no file exactly where it has no row. As a run of the group it may
/// stand where they stood: at most one, at the level that they go to, whose files tell of that level and of some rows
/// each, and no more than a file may have. Stored rows are left out only where the runs go to the highest level and
/// none is older.
pub fn rewritten_law()
    ensures place { (m : Meaning) (drop : Bool) (runs : List Run) (run : Run) → DropsNoEffect m →
        IsRewritten m drop runs run → TakesPlace m drop runs run }
    ensures none { (s : TableSchema) (m : Meaning) (drop : Bool) (level : ℕ) (names : Naming) (rests : List Rest)
        (files : List RunFile) → (are : AreRewritten s m drop level names rests files) →
        (files ≡ []) ↔ (are.run ≡ []) }
    ensures told { (s : TableSchema) (m : Meaning) (drop : Bool) (level : ℕ) (names : Naming) (rests : List Rest)
        (files : List RunFile) → AreRewritten s m drop level names rests files →
        AllByRecursion (IsMadeAt level) files }
    ensures one { (level newest : ℕ) (run : Run) (files : List RunFile) →
        (length (made_run level newest run files) ≤ 1)
        × AllByRecursion (IsRunOf level newest run files) (made_run level newest run files) }
    ensures stands { (s : TableSchema) (drop : Bool) (level newest : ℕ) (names : Naming) (rests : List Rest)
        (files : List RunFile) (taken older : List KnownRun) → DropsNoEffect (meaning_of s) →
        from_oldest taken ≡ runs_in rests → (drop ≡ true → (level ≡ top_of s) × (older ≡ [])) →
        (are : AreRewritten s (meaning_of s) drop level names rests files) →
        MayTakePlace s level taken older (made_run level newest are.run files) }
{
    replaces_law();
    oldest_law();
    made_law();
}
