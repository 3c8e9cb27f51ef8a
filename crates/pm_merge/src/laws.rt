//! What holds of runs that are merged, whatever the engine.

ghost use Rattle.std.specs.Prelude.{◌≡◌, ◌≢◌, [], ◌∷◌, ◌++◌, List, All, None, Some};
ghost use Rattle.pm_model_history.specs.Merge.{HistoryRow};
ghost use Rattle.pm_engine.specs.Covers.{Run, Covers, CoversAll, IsRising};
ghost use Rattle.pm_engine.specs.Meaning.{Meaning, DropsNoEffect, KindsAreOwn};
ghost use Rattle.pm_engine.specs.Reducing.{AreStoredRows, HasGreatestNumbers};
ghost use Rattle.pm_values.specs.declared.record.Stamped.{Stamped};
ghost use Rattle.pm_values.specs.declared.refusal.Refusal.{Refusal};
ghost use Rattle.pm_values.specs.declared.refusal.Refusal.TheVariants.{Memory};
ghost use Rattle.pm_merge.specs.Merging.{GivesAll, GivesLeast, HasRefusal, HaveNoRefusal, HaveNoRow, first_refusal};
ghost use Rattle.pm_merge.specs.Merging.{runs_in};
ghost use Rattle.pm_merge.specs.Source.{Rest};
ghost use Rattle.pm_merge.specs.Merge.{all_rows, without_droppable, AreStored, IsMerge, Replaces, ReplacesOldest};

use pm_engine::stored_law;

/// One run is made into itself.
pub fn one_run_law()
    ensures { (m : Meaning) (run : Run) → IsRising run → IsMerge m (run ∷ []) run }
{}

/// Rows that are given one after another are a run, once no row is left and so none is given any more: the rows that
/// were there at first, if they rose, are merged into it. So of stored rows it is the one run that `merge_runs` gives
/// (`merged_law`), and those given so far are its first ones. Where they end without a refusal no source had one, and
/// one that comes is that of a source: where none has one, the only refusal is that memory ran out.
pub fn given_law()
    ensures more { (m : Meaning) (first old new : List Rest) (run : Run) (s : Stamped) → GivesAll m first run old →
        GivesLeast m old s new → GivesAll m first (run ++ s ∷ []) new }
    ensures some { (m : Meaning) (old new : List Rest) (s : Stamped) → GivesLeast m old s new → HaveNoRow old → ⊥ }
    ensures all { (m : Meaning) (first last : List Rest) (run : Run) → All IsRising (runs_in first) →
        GivesAll m first run last → HaveNoRow last → IsMerge m (runs_in first) run }
    ensures same { (m : Meaning) (first last : List Rest) (run merged : Run) → AreStored m (runs_in first) →
        GivesAll m first run last → HaveNoRow last → IsMerge m (runs_in first) merged → run ≡ merged }
    ensures prefix { (m : Meaning) (first last : List Rest) (run merged : Run) → AreStored m (runs_in first) →
        GivesAll m first run last → IsMerge m (runs_in first) merged →
        (more : Run) × (merged ≡ run ++ more) × IsMerge m (runs_in last) more }
    ensures ended { (m : Meaning) (first last : List Rest) (run : Run) → GivesAll m first run last → HaveNoRow last →
        first_refusal last ≡ None → HaveNoRefusal first }
    ensures refused { (m : Meaning) (first last : List Rest) (run : Run) (e : Refusal) → GivesAll m first run last →
        first_refusal last ≡ Some e → HasRefusal first e }
    ensures memory { (m : Meaning) (first last : List Rest) (run : Run) (e : Refusal) → GivesAll m first run last →
        HaveNoRefusal first → (e ≢ Memory → first_refusal last ≡ Some e) → e ≡ Memory }
{
    stored_law();
}

/// Runs that cover rows are of stored rows, where kinds are their own, as in each table (`own_kind_law`). What such
/// runs are merged into has of each key the stored row of their rows, and so there is one such run; where kinds are
/// their own, it is one of stored rows again.
pub fn merged_law()
    ensures found { (m : Meaning) (runs : List Run) (rows : List HistoryRow) → KindsAreOwn m → All IsRising runs →
        Covers m runs rows → AreStored m runs }
    ensures stored { (m : Meaning) (runs : List Run) (run : Run) → AreStored m runs → IsMerge m runs run →
        AreStoredRows m run (all_rows runs) }
    ensures one { (m : Meaning) (runs : List Run) (one other : Run) → AreStored m runs → IsMerge m runs one →
        IsMerge m runs other → one ≡ other }
    ensures again { (m : Meaning) (runs : List Run) (run : Run) → KindsAreOwn m → AreStored m runs →
        IsMerge m runs run → AreStored m (run ∷ []) }
{
    stored_law();
}

/// What runs are merged into covers the rows that they cover, also in their place between other runs.
pub fn replaces_law()
    ensures replaces { (m : Meaning) (runs : List Run) (run : Run) → IsMerge m runs run → Replaces m runs run }
    ensures covers { (m : Meaning) (runs : List Run) (run : Run) (rows : List HistoryRow) → IsMerge m runs run →
        Covers m runs rows → Covers m (run ∷ []) rows }
    ensures covers_all { (m : Meaning) (runs : List Run) (run : Run) (rows : List HistoryRow) → IsMerge m runs run →
        CoversAll m runs rows → CoversAll m (run ∷ []) rows }
{}

/// Without the droppable rows a run rises still, and has the same numbers. In the place of the runs that it is merged
/// of, where none is older, it covers with the newer ones the rows that were covered.
pub fn oldest_law()
    ensures rising { (m : Meaning) (run : Run) → IsRising run → IsRising (without_droppable m run) }
    ensures numbers { (m : Meaning) (run rows : Run) → HasGreatestNumbers run rows →
        HasGreatestNumbers (without_droppable m run) rows }
    ensures replaces { (m : Meaning) (runs : List Run) (run : Run) → DropsNoEffect m → IsMerge m runs run →
        ReplacesOldest m runs (without_droppable m run) }
    ensures covers { (m : Meaning) (runs : List Run) (run : Run) (rows : List HistoryRow) → ReplacesOldest m runs run →
        Covers m runs rows → Covers m (run ∷ []) rows }
{}
