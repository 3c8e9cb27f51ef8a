//! The trait of an aggregate function, with its laws.

ghost use Rattle.std.specs.Prelude.{◌≡◌, ◌∷◌, [], ◌++◌, true, List, IfOk};
ghost use Rattle.pm_values.specs.Kind.{retracts};
ghost use Rattle.pm_values.specs.declared.kind.Kind.{Kind};
ghost use Rattle.pm_aggregate.specs.Column.{Cell, ColumnMeaning, IsOfType, SpeaksForCells};

use pm_values::Value;
use std::alloc::{AllocError, Global};

/// How the values of a column over the rows of a key become one. The engine rests on these laws alone.
pub trait Aggregator {
    /// What the function means.
    ghost meaning: { Self → ColumnMeaning };

    /// Whether a row is taken, by whether it retracts.
    fn accepts(&self, retract: bool) -> bool
        ensures { result ≡ (meaning self.now).takes retract };

    /// The stored value of one row: it speaks for it.
    fn lift(&self, alloc: Global, retract: bool, value: Value) -> Result<Value, AllocError>
        requires taken { (meaning self.now).takes retract ≡ true }
        ensures lifts { (kind : Kind) → retracts kind ≡ retract → IsOfType (meaning self.now).kind value →
            IfOk result (λ v. SpeaksForCells (meaning self.now) v ((kind, value) ∷ [])) };

    /// The stored value of two: it speaks for what both speak for, joined.
    fn combine(&self, alloc: Global, older: Value, newer: Value) -> Result<Value, AllocError>
        ensures combines { (before after : List Cell) → SpeaksForCells (meaning self.now) older before →
            SpeaksForCells (meaning self.now) newer after →
            IfOk result (λ v. SpeaksForCells (meaning self.now) v (before ++ after)) };
}
