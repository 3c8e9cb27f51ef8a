//! Values where they lie.

ghost use Rattle.std.specs.Prelude.{◌≡◌, IfOk, OnOk, map};
ghost use Rattle.pm_row_slots.specs.Seen.{seen_value};

use pm_base::{Blob, Txt};
use pm_values::Value;
use std::alloc::{AllocError, Global};

/// A value that lies in bytes or is lent, so that it takes no memory. Its variants are those of `Value`.
#[derive(Clone, Copy)]
pub enum Seen<'b> {
    Null,
    Bool(bool),
    Int(i64),
    Text(&'b str),
    Bytes(&'b [u8]),
    Day(i32),
    Millis(i64),
}

/// The value that is lent.
pub fn seen_of<'v>(value: &'v Value) -> Seen<'v>
    ensures { seen_value result ≡ value.now }
{
    match value {
        Value::Null => Seen::Null,
        Value::Bool(truth) => Seen::Bool(*truth),
        Value::Int(number) => Seen::Int(*number),
        Value::Text(text) => Seen::Text(text.as_str()),
        Value::Bytes(content) => Seen::Bytes(content.as_bytes()),
        Value::Day(day) => Seen::Day(*day),
        Value::Millis(millis) => Seen::Millis(*millis),
    }
}

/// The value, in memory of its own.
pub fn copied(alloc: Global, seen: Seen) -> Result<Value, AllocError>
    ensures { IfOk result (λ value. value ≡ seen_value seen.entry) }
{
    match seen {
        Seen::Null => Ok(Value::Null),
        Seen::Bool(truth) => Ok(Value::Bool(truth)),
        Seen::Int(number) => Ok(Value::Int(number)),
        Seen::Text(text) => Ok(Value::Text(Txt::from_str(alloc, text)?)),
        Seen::Bytes(content) => Ok(Value::Bytes(Blob::from_slice(alloc, content)?)),
        Seen::Day(day) => Ok(Value::Day(day)),
        Seen::Millis(millis) => Ok(Value::Millis(millis)),
    }
}

/// These values, lent, in the place of those before.
pub fn lend_values<'v>(values: &'v [Value], into: &mut Vec<Seen<'v>>) -> Result<(), AllocError>
    ensures { OnOk result (map seen_value into.new.items ≡ values.now) }
{
    into.clear();
    for value in values {
        into.push(seen_of(value))?;
    }
    Ok(())
}

/// The values, in memory of their own.
pub fn values_of(alloc: Global, seen: &[Seen]) -> Result<Vec<Value>, AllocError>
    ensures { IfOk result (λ values. values.items ≡ map seen_value seen.now) }
{
    let mut values = Vec::with_capacity(alloc, seen.len())?;
    for value in seen {
        values.push(copied(alloc, *value)?)?;
    }
    Ok(values)
}
