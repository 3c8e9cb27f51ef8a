//! The sum of a column.

ghost use Rattle.std.specs.Prelude.{◌≡◌, ◌∷◌, []};
ghost use Rattle.pm_values.specs.Kind.{retracts};
ghost use Rattle.pm_values.specs.declared.kind.Kind.{Kind};
ghost use Rattle.pm_model_history.specs.ColumnValue.{width_of};
ghost use Rattle.pm_aggregate.specs.Functions.{sum_of};
ghost use Rattle.pm_aggregate.specs.Steps.{added, beside};

use crate::aggregator::Aggregator;
use crate::values::is_null;
use pm_columns::wrapped;
use pm_values::{ColType, Value};
use std::alloc::{AllocError, Global};

/// The sum of a column's integers, as far as it goes into the type. A row that retracts is subtracted.
#[derive(Drop)]
pub struct Sum {
    pub kind: ColType,
    /// Whether rows that retract don't count.
    pub skips: bool,
}

impl Aggregator for Sum {
    ghost meaning = { λ f. sum_of f.kind f.skips };

    fn accepts(&self, _retract: bool) -> bool {
        true
    }

    fn lift(&self, _alloc: Global, retract: bool, value: Value) -> Result<Value, AllocError> {
        Ok(lifted(self.kind, self.skips, retract, value))
    }

    fn combine(&self, _alloc: Global, older: Value, newer: Value) -> Result<Value, AllocError> {
        Ok(joined(self.kind, older, newer))
    }
}

/// The sum of one row.
fn lifted(kind: ColType, skips: bool, retract: bool, value: Value) -> Value
    ensures { (row : Kind) → retracts row ≡ retract → result ≡ (sum_of kind skips).value ((row, value) ∷ []) }
{
    match value {
        Value::Int(n) if !(skips && retract) => {
            let n = i128::from(n);
            Value::Int(wrapped(kind, if retract { -n } else { n }))
        }
        other => {
            drop(other);
            Value::Null
        }
    }
}

/// The sum of two sums.
fn joined(kind: ColType, older: Value, newer: Value) -> Value
    ensures { result ≡ beside (added (width_of kind)) older newer }
{
    if is_null(&older) {
        return newer;
    }
    if is_null(&newer) {
        return older;
    }
    added(kind, &older, &newer)
}

/// The sum of two integers.
fn added(kind: ColType, older: &Value, newer: &Value) -> Value
    ensures { result ≡ added (width_of kind) older.now newer.now }
{
    match older {
        Value::Int(a) => match newer {
            Value::Int(b) => Value::Int(wrapped(kind, i128::from(*a) + i128::from(*b))),
            _ => Value::Null,
        },
        _ => Value::Null,
    }
}
