//! A table's schema.

ghost use Rattle.std.specs.Prelude.{◌≡◌, IfOk};

use pm_options::{Copied, Listed, Options};
use pm_values::{Column, Txt};
use std::alloc::{AllocError, Global};

/// A table's schema.
pub struct TableSchema {
    pub id: u64,
    pub columns: Listed<Column>,
    /// The greatest id that a column has or had.
    pub highest: u32,
    /// The names of the partition columns, in the order in which their folders nest.
    pub partition: Listed<Txt>,
    /// The names of the primary key's columns.
    pub primary: Listed<Txt>,
    pub options: Options,
    pub comment: Option<Txt>,
    /// When the schema was made, in milliseconds from 1970-01-01.
    pub time: i64,
    /// The name of the file of snapshot 0, without its folder.
    pub origin: Option<Txt>,
}

impl Drop for TableSchema {
    fn drop(self) {
        let TableSchema {
            id,
            columns,
            highest,
            partition,
            primary,
            options,
            comment,
            time,
            origin,
        } = self;
    }
}

impl TableSchema {
    /// An equal schema.
    pub fn copy(&self, alloc: Global) -> Result<TableSchema, AllocError>
        ensures { IfOk result (λ s. s ≡ self.now) }
    {
        Ok(TableSchema {
            id: self.id,
            columns: self.columns.copied(alloc)?,
            highest: self.highest,
            partition: self.partition.copied(alloc)?,
            primary: self.primary.copied(alloc)?,
            options: self.options.copy(alloc)?,
            comment: copied(alloc, &self.comment)?,
            time: self.time,
            origin: copied(alloc, &self.origin)?,
        })
    }
}

/// An equal text, where there is one.
fn copied(alloc: Global, text: &Option<Txt>) -> Result<Option<Txt>, AllocError>
    ensures { IfOk result (λ t. t ≡ text.now) }
{
    match text {
        Some(text) => Ok(Some(text.copy(alloc)?)),
        None => Ok(None),
    }
}
