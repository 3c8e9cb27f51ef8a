//! The greatest and the least value of a column.

ghost use Rattle.std.specs.Prelude.{◌≡◌};
ghost use Rattle.pm_aggregate.specs.Functions.{greatest_of, least_of};
ghost use Rattle.pm_aggregate.specs.Steps.{beside, not_greater, not_less, picked};

use crate::aggregator::Aggregator;
use crate::values::{is_null, left};
use pm_values::{ColType, Value};
use std::alloc::{AllocError, Global};

/// The greatest value of a column that isn't null.
#[derive(Drop)]
pub struct Max {
    pub kind: ColType,
    /// Whether rows that retract don't count; else they are refused.
    pub skips: bool,
}

impl Aggregator for Max {
    ghost meaning = { λ f. greatest_of f.kind f.skips };

    fn accepts(&self, retract: bool) -> bool {
        self.skips || !retract
    }

    fn lift(&self, _alloc: Global, retract: bool, value: Value) -> Result<Value, AllocError> {
        Ok(left(retract, value))
    }

    fn combine(&self, _alloc: Global, older: Value, newer: Value) -> Result<Value, AllocError> {
        Ok(greater(older, newer))
    }
}

/// The greater of two values, where null counts for nothing.
fn greater(older: Value, newer: Value) -> Value
    ensures { result ≡ beside (picked not_greater) older newer }
{
    if is_null(&older) {
        drop(older);
        return newer;
    }
    if is_null(&newer) || newer.cmp(&older).is_le() {
        drop(newer);
        return older;
    }
    drop(older);
    newer
}

/// The least value of a column that isn't null.
#[derive(Drop)]
pub struct Min {
    pub kind: ColType,
    /// Whether rows that retract don't count; else they are refused.
    pub skips: bool,
}

impl Aggregator for Min {
    ghost meaning = { λ f. least_of f.kind f.skips };

    fn accepts(&self, retract: bool) -> bool {
        self.skips || !retract
    }

    fn lift(&self, _alloc: Global, retract: bool, value: Value) -> Result<Value, AllocError> {
        Ok(left(retract, value))
    }

    fn combine(&self, _alloc: Global, older: Value, newer: Value) -> Result<Value, AllocError> {
        Ok(lesser(older, newer))
    }
}

/// The lesser of two values, where null counts for nothing.
fn lesser(older: Value, newer: Value) -> Value
    ensures { result ≡ beside (picked not_less) older newer }
{
    if is_null(&older) {
        drop(older);
        return newer;
    }
    if is_null(&newer) || newer.cmp(&older).is_ge() {
        drop(newer);
        return older;
    }
    drop(older);
    newer
}
