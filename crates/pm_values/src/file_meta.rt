//! What is known of a file of rows without reading it.

ghost use Rattle.std.specs.Prelude.{◌≡◌, IfOk};

use crate::key::Key;
use pm_base::Txt;
use std::alloc::{AllocError, Global};

/// A data file or a changelog file, as manifests list it.
pub struct FileMeta {
    /// Its name in the folder of its group.
    pub name: Txt,
    /// Its length in bytes.
    pub size: u64,
    /// The number of its rows.
    pub rows: u64,
    /// The least key of its rows, with all columns of the primary key.
    pub min_key: Key,
    /// The greatest key of its rows.
    pub max_key: Key,
    /// The least sequence number of its rows.
    pub min_seq: u64,
    /// The greatest sequence number of its rows.
    pub max_seq: u64,
    /// The id of the table's schema that its rows are written with.
    pub schema_id: u64,
    /// The level of its run: 0 for what a commit of rows writes, higher for what a compaction writes.
    pub level: u32,
    /// When it was created, in milliseconds from 1970-01-01T00:00:00, where that is known.
    pub created: Option<i64>,
}

impl Drop for FileMeta {
    fn drop(self) {
        let FileMeta {
            name,
            size,
            rows,
            min_key,
            max_key,
            min_seq,
            max_seq,
            schema_id,
            level,
            created,
        } = self;
    }
}

impl FileMeta {
    /// An equal record.
    pub fn copy(&self, alloc: Global) -> Result<FileMeta, AllocError>
        ensures { IfOk result (λ m. m ≡ self.now) }
    {
        Ok(FileMeta {
            name: self.name.copy(alloc)?,
            size: self.size,
            rows: self.rows,
            min_key: self.min_key.copy(alloc)?,
            max_key: self.max_key.copy(alloc)?,
            min_seq: self.min_seq,
            max_seq: self.max_seq,
            schema_id: self.schema_id,
            level: self.level,
            created: self.created,
        })
    }
}
