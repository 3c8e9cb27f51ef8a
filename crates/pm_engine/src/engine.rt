//! The trait of a merge engine, with its four laws.

ghost use Rattle.std.specs.Prelude.{◌≡◌, ◌≢◌, ◌∷◌, [], ◌++◌, List, IfOk, IsTrue};
ghost use Rattle.pm_values.specs.Fits.{Fits};
ghost use Rattle.pm_values.specs.Order.{Values};
ghost use Rattle.pm_model_history.specs.Merge.{HistoryRow, key_of};
ghost use Rattle.pm_model_history.specs.declared.verdict.Verdict.TheVariants.{Take};
ghost use Rattle.pm_engine.specs.Meaning.{Meaning, DropsNoEffect, SpeaksFor};
ghost use Rattle.pm_engine.specs.Needed.{IsNeeded};
ghost use Rattle.pm_engine.specs.Reducing.{StoresRows};
ghost use Rattle.pm_engine.specs.Stored.{as_row};

use crate::needed::Needed;
use crate::stored::Stored;
use pm_model_history::Verdict;
use pm_values::{Kind, Row};
use std::alloc::{AllocError, Global};

/// How the rows of a key become one stored row. The layers above rest on these laws alone.
pub trait MergeEngine {
    /// What the engine means.
    ghost meaning: { Self → Meaning };

    /// What becomes of a row of the kind.
    fn accepts(&self, kind: Kind) -> Verdict
        ensures { result ≡ (meaning self.now).verdict kind };

    /// The stored row of one row: it has the row's kind, as the engine keeps it, and speaks for it.
    fn lift(&self, alloc: Global, kind: Kind, row: Row) -> Result<Stored, AllocError>
        requires taken { (meaning self.now).verdict kind ≡ Take }
        ensures kind { IfOk result (λ stored. stored.kind ≡ (meaning self.now).kind ((kind, row) ∷ [])) }
        ensures lifts { Fits (meaning self.now).columns row → IfOk result (λ stored.
            SpeaksFor (meaning self.now) (key_of (meaning self.now).primary row) (as_row stored) ((kind, row) ∷ [])) };

    /// The stored row of two: it speaks for what both speak for, joined, and has the kind of these rows where each has
    /// the kind of its own.
    fn combine(&self, alloc: Global, older: Stored, newer: Stored) -> Result<Stored, AllocError>
        ensures kind { (before after : List HistoryRow) → before ≢ [] → after ≢ [] →
            older.kind ≡ (meaning self.now).kind before → newer.kind ≡ (meaning self.now).kind after →
            IfOk result (λ stored. stored.kind ≡ (meaning self.now).kind (before ++ after)) }
        ensures combines { (key : Values) (before after : List HistoryRow) →
            SpeaksFor (meaning self.now) key (as_row older) before →
            SpeaksFor (meaning self.now) key (as_row newer) after → IfOk result (λ stored.
            SpeaksFor (meaning self.now) key (as_row stored) (before ++ after)) };

    /// Which of two stored rows of a key their stored row is made of. Of one alone it is that row, whatever the other
    /// is, but for its number.
    fn needed(&self) -> Needed
        ensures { IsNeeded (meaning self.now) result };

    /// Whether each row is its own stored row, which `lift` gives unchanged.
    fn stores_rows(&self) -> bool
        ensures { IsTrue result → StoresRows (meaning self.now) };

    /// Whether the key of the stored row shows.
    fn shows(&self, stored: &Stored) -> bool
        ensures alone { result ≡ (meaning self.now).shows (as_row stored.now ∷ []) }
        ensures shows { (key : Values) (rows : List HistoryRow) →
            SpeaksFor (meaning self.now) key (as_row stored.now) rows → result ≡ (meaning self.now).shows rows };

    /// Whether the stored row is left out where nothing older is left.
    fn droppable(&self, stored: &Stored) -> bool
        ensures { result ≡ (meaning self.now).drops (as_row stored.now) };

    /// Whatever the engine, what is left out has no effect.
    fn droppable_law()
        ensures { (engine : Self) → DropsNoEffect (meaning engine) };
}
