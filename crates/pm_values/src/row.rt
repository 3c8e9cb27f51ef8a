//! A row: one value per column.

ghost use Rattle.std.specs.Prelude.{◌≡◌, IfOk};
ghost use Rattle.pm_values.specs.Order.{Values};

use crate::value::Value;
use std::alloc::{AllocError, Global};
use std::marker::Model;

/// The values of a row, in the order of the columns, seen as their list.
pub struct Row {
    values: Vec<Value>,
}

impl Drop for Row {
    fn drop(self) {
        let Row { values } = self;
    }
}

impl Model for Row {
    ghost use Rattle.pm_values.specs.Order.{Values};

    ghost Value = { Values };

    ghost view = { λ r. r.values.items };
}

impl Row {
    /// The row of these values.
    pub fn new(values: Vec<Value>) -> Row
        ensures { result ≡ values.items }
    {
        Row { values }
    }

    /// The values of the row.
    pub fn values(&self) -> &[Value]
        ensures { result.now ≡ self.now }
    {
        self.values.as_slice()
    }

    /// The values in a vector of their own.
    pub fn into_values(self) -> Vec<Value>
        ensures { result.items ≡ self }
    {
        let Row { values } = self;
        values
    }

    /// An equal row.
    pub fn copy(&self, alloc: Global) -> Result<Row, AllocError>
        ensures { IfOk result (λ r. r ≡ self.now) }
    {
        Ok(Row {
            values: copied(alloc, self.values.as_slice())?,
        })
    }
}

/// Equal values in a vector of their own.
pub(crate) fn copied(alloc: Global, values: &[Value]) -> Result<Vec<Value>, AllocError>
    ensures { IfOk result (λ v. v.items ≡ values.now) }
{
    let mut out = Vec::with_capacity(alloc, values.len())?;
    for value in values {
        out.push(value.copy(alloc)?)?;
    }
    Ok(out)
}
