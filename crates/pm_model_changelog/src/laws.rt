//! Laws of the changelog of a group.

ghost use Rattle.std.specs.Prelude.{◌≡◌, ◌↔◌, ℕ, suc, nat_lt, ◌==◌, Bool, true, false};
ghost use Rattle.std.specs.Prelude.{List, [], ◌∷◌, ◌++◌, length, map, Some};
ghost use Rattle.std.specs.List.{AllByRecursion, flat_map};
ghost use Rattle.pm_options.specs.declared.kinds.Producer.TheVariants.{FullCompaction, Input, Lookup};
ghost use Rattle.pm_schema.specs.Rules.{partition_holds};
ghost use Rattle.pm_schema.specs.declared.schema.TableSchema.{TableSchema};
ghost use Rattle.pm_values.specs.Order.{Values};
ghost use Rattle.pm_values.specs.declared.group.Group.{Group};
ghost use Rattle.pm_values.specs.declared.record.Stamped.{Stamped};
ghost use Rattle.pm_model_history.specs.History.{Entry, entry_rows, rows_up_to};
ghost use Rattle.pm_model_history.specs.Merge.{AllFit, HistoryRow, key_of, rows_of};
ghost use Rattle.pm_model_history.specs.Merged.{primary_of};
ghost use Rattle.pm_model_following.specs.Following.{base_of, by_key, change, passed, passed_rows, told_at};
ghost use Rattle.pm_model_following.specs.Groups.{rows_in};
ghost use Rattle.pm_engine.specs.Covers.{Covers, CoversAll, IsRising, Run, of_key};
ghost use Rattle.pm_engine.specs.OfSchema.{meaning_of};
ghost use Rattle.pm_runs.specs.Stand.{oldest_first, top_of};
ghost use Rattle.pm_runs.specs.Succession.{IsSuccession, IsTaken, KnownRun, StillStands, Taking, without_files};
ghost use Rattle.pm_model_changelog.specs.Log.{AreByKey, Compares, IsKeyOf, Passing, PassesNothing, PassesOn};
ghost use Rattle.pm_model_changelog.specs.Log.{rising_keys, log_of, told_by};

use pm_engine::covers_law;
use pm_model_history::merged_table_law;
use pm_runs::rows_law;

/// Of a group the rows that are passed on at a snapshot are its rows up to one entry.
pub fn passed_law()
    ensures { (s : TableSchema) (g : Group) (entries : List Entry) (n : ℕ)
        → rows_in s g (passed_rows s entries n)
        ≡ rows_in s g (rows_up_to entries (passed s.options.producer entries n g)) }
{}

/// What is told of a key are rows that have it.
pub fn told_keys_law()
    ensures { (s : TableSchema) (entries : List Entry) (n : ℕ) (key : Values)
        → AllFit s.columns (flat_map entry_rows entries)
        → AllByRecursion (λ (r : HistoryRow). key_of (primary_of s) r.1 ≡ key) (told_at s entries n key) }
{
    merged_table_law();
}

/// What the snapshot of a compaction tells of a key is what the runs at its base tell.
pub fn told_law()
    ensures { (s : TableSchema) (g : Group) (entries : List Entry) (e : Entry) (wholly : Bool) (p : Passing)
        (key : Values) → Compares s.options.producer wholly → PassesOn s g entries e wholly p → IsKeyOf s g key
        → told_at s (entries ++ e ∷ []) (suc (length entries)) key ≡ told_by s p.older p.newer key }
{
    covers_law();
    merged_table_law();
}

/// So the group's part of the snapshot's change is the log of these runs.
pub fn log_law()
    ensures { (s : TableSchema) (g : Group) (entries : List Entry) (e : Entry) (wholly : Bool) (p : Passing)
        → partition_holds s ≡ true → AllFit s.columns (flat_map entry_rows (entries ++ e ∷ []))
        → Compares s.options.producer wholly → PassesOn s g entries e wholly p
        → rows_in s g (change s (entries ++ e ∷ []) (suc (length entries))) ≡ log_of s p.older p.newer }
{
    told_keys_law();
    told_law();
}

/// Where an entry passes nothing of a group on, its snapshot tells nothing of it.
pub fn quiet_law()
    ensures { (s : TableSchema) (g : Group) (entries : List Entry) (e : Entry) (wholly : Bool)
        → partition_holds s ≡ true → AllFit s.columns (flat_map entry_rows (entries ++ e ∷ []))
        → Compares s.options.producer wholly → PassesNothing g entries e wholly
        → rows_in s g (change s (entries ++ e ∷ []) (suc (length entries))) ≡ [] }
{
    told_keys_law();
}

/// With the producer of inputs the group's part of a snapshot's change has the group's rows of the entry.
pub fn input_law()
    ensures { (s : TableSchema) (g : Group) (entries : List Entry) (e : Entry)
        → partition_holds s ≡ true → s.options.producer ≡ Input
        → rows_in s g (change s (entries ++ e ∷ []) (suc (length entries))) ≡ by_key s (rows_in s g (entry_rows e)) }
{}

/// Rows by key rise, and have of each key the rows in their order; only they do.
pub fn by_key_law()
    ensures rise { (s : TableSchema) (rows : List HistoryRow) → AreByKey s (by_key s rows) }
    ensures same { (s : TableSchema) (key : Values) (rows : List HistoryRow)
        → rows_of (primary_of s) key (by_key s rows) ≡ rows_of (primary_of s) key rows }
    ensures only { (s : TableSchema) (rows given : List HistoryRow) → AreByKey s rows
        → ((key : Values) → rows_of (primary_of s) key rows ≡ rows_of (primary_of s) key given)
        → rows ≡ by_key s given }
{}

/// The keys of runs are those of a run that rises and has a key exactly where they do, as a merge of them is.
pub fn keys_law()
    ensures { (runs : List Run) (run : Run) → IsRising run
        → ((key : Values) → (of_key key run ≡ []) ↔ (of_key key (flat_map (λ (r : Run). r) runs) ≡ []))
        → map (λ (r : Stamped). r.key) run ≡ rising_keys runs }
{}

/// The log is a matter of what the runs cover: it stays the same where the older ones or the newer ones are merged.
pub fn merged_log_law()
    ensures { (s : TableSchema) (older newer older_merged newer_merged : List Run) (rows more : List HistoryRow)
        → Covers (meaning_of s) older rows → Covers (meaning_of s) older_merged rows
        → CoversAll (meaning_of s) newer more → CoversAll (meaning_of s) newer_merged more
        → log_of s older newer ≡ log_of s older_merged newer_merged }
{
    covers_law();
}

/// Rows that have of each group what a snapshot changes in it are, by key, the snapshot's change, in whatever order the
/// groups stand: so the logs of the groups, merged by key, are the change.
pub fn parts_law()
    ensures { (s : TableSchema) (entries : List Entry) (n : ℕ) (rows : List HistoryRow)
        → partition_holds s ≡ true → AllFit s.columns (flat_map entry_rows entries)
        → ((g : Group) → rows_in s g rows ≡ rows_in s g (change s entries n)) → by_key s rows ≡ change s entries n }
{
    told_keys_law();
}

/// Where runs that a compaction took still stand, its log with the producer of look-ups is that of the runs at level 0
/// of its base upon those above: also where others passed these rows on, since there is none at level 0 then.
pub fn lookup_log_law()
    ensures { (s : TableSchema) (g : Group) (entries : List Entry) (since : ℕ) (runs : ℕ → List KnownRun)
        (t : Taking) (e : Entry)
        → partition_holds s ≡ true → AllFit s.columns (flat_map entry_rows (entries ++ e ∷ []))
        → s.options.producer ≡ Lookup → IsSuccession s g entries since runs
        → IsTaken s since runs (length entries) t → StillStands s g entries runs t → base_of false g e ≡ Some t.base
        → rows_in s g (change s (entries ++ e ∷ []) (suc (length entries)))
        ≡ log_of s (oldest_first (λ level. nat_lt 0 level) (map without_files (runs t.base)))
        (oldest_first (λ level. level == 0) (map without_files (runs t.base))) }
{
    keys_law();
    log_law();
    quiet_law();
    rows_law();
}

/// With the producer of full compactions, where it took all runs of the group, it is that of the others upon the run at
/// the top level.
pub fn full_log_law()
    ensures { (s : TableSchema) (g : Group) (entries : List Entry) (since : ℕ) (runs : ℕ → List KnownRun)
        (t : Taking) (e : Entry)
        → partition_holds s ≡ true → AllFit s.columns (flat_map entry_rows (entries ++ e ∷ []))
        → s.options.producer ≡ FullCompaction → IsSuccession s g entries since runs
        → IsTaken s since runs (length entries) t → StillStands s g entries runs t → t.rest ≡ []
        → base_of true g e ≡ Some t.base
        → rows_in s g (change s (entries ++ e ∷ []) (suc (length entries)))
        ≡ log_of s (oldest_first (λ level. level == top_of s) (map without_files (runs t.base)))
        (oldest_first (λ level. nat_lt level (top_of s)) (map without_files (runs t.base))) }
{
    log_law();
}
