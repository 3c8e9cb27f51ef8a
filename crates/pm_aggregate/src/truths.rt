//! Whether all truths of a column hold, and whether one does.

ghost use Rattle.std.specs.Prelude.{◌≡◌, if◌then◌else◌};
ghost use Rattle.pm_values.specs.declared.value.Value.TheVariants.{Null};
ghost use Rattle.pm_aggregate.specs.Functions.{all_of, any_of};
ghost use Rattle.pm_aggregate.specs.Steps.{beside, both, either, truth_alone};

use crate::aggregator::Aggregator;
use crate::values::is_null;
use pm_values::{ColType, Value};
use std::alloc::{AllocError, Global};

/// Whether all truths of a column hold. Null is no truth.
#[derive(Drop)]
pub struct BoolAnd {
    pub kind: ColType,
    /// Whether rows that retract don't count; else they are refused.
    pub skips: bool,
}

impl Aggregator for BoolAnd {
    ghost meaning = { λ f. all_of f.kind f.skips };

    fn accepts(&self, retract: bool) -> bool {
        self.skips || !retract
    }

    fn lift(&self, _alloc: Global, retract: bool, value: Value) -> Result<Value, AllocError> {
        Ok(lifted(retract, value))
    }

    fn combine(&self, _alloc: Global, older: Value, newer: Value) -> Result<Value, AllocError> {
        Ok(all(older, newer))
    }
}

/// The truth of one row.
fn lifted(retract: bool, value: Value) -> Value
    ensures { result ≡ (if retract then Null else truth_alone value) }
{
    match value {
        Value::Bool(truth) if !retract => Value::Bool(truth),
        other => {
            drop(other);
            Value::Null
        }
    }
}

/// Whether both truths hold, where null is no truth.
fn all(older: Value, newer: Value) -> Value
    ensures { result ≡ beside both older newer }
{
    if is_null(&older) {
        drop(older);
        return newer;
    }
    if is_null(&newer) {
        drop(newer);
        return older;
    }
    let truth = both(&older, &newer);
    drop(older);
    drop(newer);
    truth
}

/// Whether both truths hold.
fn both(older: &Value, newer: &Value) -> Value
    ensures { result ≡ both older.now newer.now }
{
    match older {
        Value::Bool(a) => match newer {
            Value::Bool(b) => Value::Bool(*a && *b),
            _ => Value::Null,
        },
        _ => Value::Null,
    }
}

/// Whether one truth of a column holds. Null is no truth.
#[derive(Drop)]
pub struct BoolOr {
    pub kind: ColType,
    /// Whether rows that retract don't count; else they are refused.
    pub skips: bool,
}

impl Aggregator for BoolOr {
    ghost meaning = { λ f. any_of f.kind f.skips };

    fn accepts(&self, retract: bool) -> bool {
        self.skips || !retract
    }

    fn lift(&self, _alloc: Global, retract: bool, value: Value) -> Result<Value, AllocError> {
        Ok(lifted(retract, value))
    }

    fn combine(&self, _alloc: Global, older: Value, newer: Value) -> Result<Value, AllocError> {
        Ok(any(older, newer))
    }
}

/// Whether one of two truths holds, where null is no truth.
fn any(older: Value, newer: Value) -> Value
    ensures { result ≡ beside either older newer }
{
    if is_null(&older) {
        drop(older);
        return newer;
    }
    if is_null(&newer) {
        drop(newer);
        return older;
    }
    let truth = either(&older, &newer);
    drop(older);
    drop(newer);
    truth
}

/// Whether one of two truths holds.
fn either(older: &Value, newer: &Value) -> Value
    ensures { result ≡ either older.now newer.now }
{
    match older {
        Value::Bool(a) => match newer {
            Value::Bool(b) => Value::Bool(*a || *b),
            _ => Value::Null,
        },
        _ => Value::Null,
    }
}
