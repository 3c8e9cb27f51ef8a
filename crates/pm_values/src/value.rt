//! A column's value.

ghost use Rattle.std.specs.Prelude.{◌≡◌, IfOk};

use pm_base::{Blob, Txt};
use std::alloc::{AllocError, Global};

/// A value. Values of one variant compare as false before true, by size, or by bytes unsigned;
/// values of different variants compare in the order of the variants, so null is least.
#[derive(Drop, PartialEq, Eq, PartialOrd, Ord)]
pub enum Value {
    Null,
    Bool(bool),
    /// TINYINT, SMALLINT, INT, BIGINT.
    Int(i64),
    Text(Txt),
    Bytes(Blob),
    /// Days from 1970-01-01.
    Day(i32),
    /// Milliseconds from 1970-01-01T00:00:00.
    Millis(i64),
}

impl Value {
    /// An equal value.
    pub fn copy(&self, alloc: Global) -> Result<Value, AllocError>
        ensures { IfOk result (λ v. v ≡ self.now) }
    {
        match self {
            Value::Null => Ok(Value::Null),
            Value::Bool(b) => Ok(Value::Bool(*b)),
            Value::Int(n) => Ok(Value::Int(*n)),
            Value::Text(text) => Ok(Value::Text(text.copy(alloc)?)),
            Value::Bytes(bytes) => Ok(Value::Bytes(bytes.copy(alloc)?)),
            Value::Day(day) => Ok(Value::Day(*day)),
            Value::Millis(millis) => Ok(Value::Millis(*millis)),
        }
    }
}
