//! A table's columns.

ghost use Rattle.std.specs.Prelude.{◌≡◌, IfOk};

use pm_base::Txt;
use std::alloc::{AllocError, Global};

/// The type of a column: BOOLEAN, TINYINT, SMALLINT, INT, BIGINT, STRING, BYTES, DATE, TIMESTAMP(3).
#[derive(Clone, Copy)]
pub enum ColType {
    Boolean,
    TinyInt,
    SmallInt,
    Int,
    BigInt,
    Text,
    Bytes,
    Date,
    Timestamp,
}

/// A column: its id, its name, its type, and whether null may stand in it.
pub struct Column {
    pub id: u32,
    pub name: Txt,
    pub kind: ColType,
    pub nullable: bool,
}

impl Drop for Column {
    fn drop(self) {
        let Column {
            id,
            name,
            kind,
            nullable,
        } = self;
    }
}

impl Column {
    /// An equal column.
    pub fn copy(&self, alloc: Global) -> Result<Column, AllocError>
        ensures { IfOk result (λ c. c ≡ self.now) }
    {
        Ok(Column {
            id: self.id,
            name: self.name.copy(alloc)?,
            kind: self.kind,
            nullable: self.nullable,
        })
    }
}
