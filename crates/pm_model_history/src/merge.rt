//! Rows and their keys.

ghost use Rattle.std.specs.Prelude.{◌≡◌, IfOk, map};
ghost use Rattle.pm_model_history.specs.Merge.{key_of, value_at};

use pm_values::{Key, Row, Value};
use std::alloc::{AllocError, Global};

/// The key of a row: its values at the indexes of the primary key's columns.
pub fn key_of(alloc: Global, primary: &[usize], row: &Row) -> Result<Key, AllocError>
    ensures { IfOk result (λ key. key ≡ key_of primary.now row.now) }
{
    let mut key = Vec::with_capacity(alloc, primary.len())?;
    for index in primary {
        key.push(value_at(alloc, row.values(), *index)?)?;
    }
    Ok(Key::new(key))
}

/// The value at an index, null where there is none.
fn value_at(alloc: Global, values: &[Value], index: usize) -> Result<Value, AllocError>
    ensures { IfOk result (λ value. value ≡ value_at values.now index) }
{
    match values.get(index) {
        Some(value) => value.copy(alloc),
        None => Ok(Value::Null),
    }
}
