//! The last and the first value of a column.

ghost use Rattle.std.specs.Prelude.{◌≡◌};
ghost use Rattle.pm_aggregate.specs.Functions.{first_non_null_of, first_of, last_non_null_of, last_of};
ghost use Rattle.pm_aggregate.specs.Steps.{beside, earlier, later};

use crate::aggregator::Aggregator;
use crate::values::{is_null, left};
use pm_values::{ColType, Value};
use std::alloc::{AllocError, Global};

/// The value of the last row, null too. After a row that retracts it is null.
#[derive(Drop)]
pub struct LastValue {
    pub kind: ColType,
}

impl Aggregator for LastValue {
    ghost meaning = { λ f. last_of f.kind };

    fn accepts(&self, _retract: bool) -> bool {
        true
    }

    fn lift(&self, _alloc: Global, retract: bool, value: Value) -> Result<Value, AllocError> {
        Ok(left(retract, value))
    }

    fn combine(&self, _alloc: Global, _older: Value, newer: Value) -> Result<Value, AllocError> {
        Ok(newer)
    }
}

/// The last value that isn't null.
#[derive(Drop)]
pub struct LastNonNullValue {
    pub kind: ColType,
    /// Whether rows that retract don't count; else they are refused.
    pub skips: bool,
}

impl Aggregator for LastNonNullValue {
    ghost meaning = { λ f. last_non_null_of f.kind f.skips };

    fn accepts(&self, retract: bool) -> bool {
        self.skips || !retract
    }

    fn lift(&self, _alloc: Global, retract: bool, value: Value) -> Result<Value, AllocError> {
        Ok(left(retract, value))
    }

    fn combine(&self, _alloc: Global, older: Value, newer: Value) -> Result<Value, AllocError> {
        Ok(latest(older, newer))
    }
}

/// The newer of two values that isn't null.
fn latest(older: Value, newer: Value) -> Value
    ensures { result ≡ beside later older newer }
{
    if is_null(&newer) {
        drop(newer);
        return older;
    }
    drop(older);
    newer
}

/// The value of the first row, null too.
#[derive(Drop)]
pub struct FirstValue {
    pub kind: ColType,
}

impl Aggregator for FirstValue {
    ghost meaning = { λ f. first_of f.kind };

    fn accepts(&self, retract: bool) -> bool {
        !retract
    }

    fn lift(&self, _alloc: Global, _retract: bool, value: Value) -> Result<Value, AllocError> {
        Ok(value)
    }

    fn combine(&self, _alloc: Global, older: Value, _newer: Value) -> Result<Value, AllocError> {
        Ok(older)
    }
}

/// The first value that isn't null.
#[derive(Drop)]
pub struct FirstNonNullValue {
    pub kind: ColType,
    /// Whether rows that retract don't count; else they are refused.
    pub skips: bool,
}

impl Aggregator for FirstNonNullValue {
    ghost meaning = { λ f. first_non_null_of f.kind f.skips };

    fn accepts(&self, retract: bool) -> bool {
        self.skips || !retract
    }

    fn lift(&self, _alloc: Global, retract: bool, value: Value) -> Result<Value, AllocError> {
        Ok(left(retract, value))
    }

    fn combine(&self, _alloc: Global, older: Value, newer: Value) -> Result<Value, AllocError> {
        Ok(earliest(older, newer))
    }
}

/// The older of two values that isn't null.
fn earliest(older: Value, newer: Value) -> Value
    ensures { result ≡ beside earlier older newer }
{
    if is_null(&older) {
        drop(older);
        return newer;
    }
    drop(newer);
    older
}
