//! Laws of a group's runs, whoever commits. Each holds with no call.

ghost use Rattle.std.specs.Prelude.{◌≡◌, ℕ, suc, ◌≤◌, List, [], ◌∷◌, ◌++◌, length, map, Contains};
ghost use Rattle.pm_values.specs.declared.group.Group.{Group};
ghost use Rattle.pm_schema.specs.declared.schema.TableSchema.{TableSchema};
ghost use Rattle.pm_model_history.specs.History.{Entry};
ghost use Rattle.pm_model_following.specs.Following.{HaveBases};
ghost use Rattle.pm_model_following.specs.Groups.{rows_in};
ghost use Rattle.pm_engine.specs.Covers.{Run};
ghost use Rattle.pm_engine.specs.Meaning.{Meaning};
ghost use Rattle.pm_runs.specs.Stand.{StandForRows, rows_after, top_of};
ghost use Rattle.pm_runs.specs.Succession.{AreKnownAt, Follows, HaveFilesIn, IsReplaced, IsSuccession};
ghost use Rattle.pm_runs.specs.Succession.{IsTaken, KnownRun, StillStands, TakeOldestPlace, TakePlace, Taking};
ghost use Rattle.pm_runs.specs.Succession.{unless_empty, without_files};

use pm_engine::added_law;

/// The rows that a group has of entries, part by part.
pub fn rows_law()
    ensures { (s : TableSchema) (g : Group) (entries : List Entry) (a b c : ℕ) → a ≤ b → b ≤ c →
        rows_in s g (rows_after entries a c)
        ≡ rows_in s g (rows_after entries a b) ++ rows_in s g (rows_after entries b c) }
{}

/// A group that stands has a succession from there on.
pub fn found_law()
    ensures { (s : TableSchema) (g : Group) (entries : List Entry) (runs : List KnownRun) → HaveBases 1 entries →
        AreKnownAt s g entries (length entries) runs → IsSuccession s g entries (length entries) (λ n. runs) }
{}

/// A succession is one of the runs up to the newest snapshot alone.
pub fn same_law()
    ensures { (s : TableSchema) (g : Group) (entries : List Entry) (since : ℕ) (runs later : ℕ → List KnownRun) →
        IsSuccession s g entries since runs → ((n : ℕ) → n ≤ length entries → later n ≡ runs n) →
        IsSuccession s g entries since later }
{}

/// A succession goes on by whatever follows: the runs stand for the rows of the next snapshot, too.
pub fn goes_on_law()
    ensures { (s : TableSchema) (g : Group) (entries : List Entry) (since : ℕ) (runs later : ℕ → List KnownRun)
        (e : Entry) → IsSuccession s g entries since runs → since ≤ length entries → 1 ≤ top_of s →
        HaveBases 1 (entries ++ e ∷ []) → ((n : ℕ) → n ≤ length entries → later n ≡ runs n) →
        Follows s g since runs (length entries) e (later (suc (length entries))) →
        IsSuccession s g (entries ++ e ∷ []) since later }
{
    added_law();
}

/// Where a file of each run that a compaction took is live at the newest snapshot, each of these runs still stands.
pub fn there_law()
    ensures { (s : TableSchema) (g : Group) (entries : List Entry) (since : ℕ) (runs : ℕ → List KnownRun)
        (t : Taking) → IsSuccession s g entries since runs → IsTaken s since runs (length entries) t →
        HaveFilesIn t.taken (runs (length entries)) →
        (run : KnownRun) → Contains t.taken run → Contains (runs (length entries)) run }
{}

/// Where each of them still stands, they stand together, whatever came since; and what came since is before them.
pub fn still_law()
    ensures { (s : TableSchema) (g : Group) (entries : List Entry) (since : ℕ) (runs : ℕ → List KnownRun)
        (t : Taking) → IsSuccession s g entries since runs → IsTaken s since runs (length entries) t →
        ((run : KnownRun) → Contains t.taken run → Contains (runs (length entries)) run) →
        StillStands s g entries runs t }
{
    added_law();
}

/// Once they are replaced, by an entry that says so, the runs stand for the rows.
pub fn placed_law()
    ensures { (s : TableSchema) (g : Group) (entries : List Entry) (since : ℕ) (runs : ℕ → List KnownRun)
        (t : Taking) (e : Entry) (made new : List KnownRun) → IsSuccession s g entries since runs →
        IsTaken s since runs (length entries) t → (still : StillStands s g entries runs t) →
        IsReplaced s g e t still.later still.older made new →
        StandForRows s (entries ++ e ∷ []) (suc (length entries)) g (map without_files new) }
{
    added_law();
}

/// Where one run may take the place of others, and it has no row, it may be left out.
pub fn made_law()
    ensures place { (m : Meaning) (old : List Run) (run : Run) → TakePlace m old (run ∷ []) →
        TakePlace m old (unless_empty run) }
    ensures oldest { (m : Meaning) (old : List Run) (run : Run) → TakeOldestPlace m old (run ∷ []) →
        TakeOldestPlace m old (unless_empty run) }
{}
