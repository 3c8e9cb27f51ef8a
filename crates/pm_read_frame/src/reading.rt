//! Changelog files that are read one after another.

use crate::file::ChangesFile;
use pm_packed::PackedRows;
use pm_schema::TableSchema;
use std::collections::VecDeque;
use std::marker::Model;

/// The table's schema, the snapshot's id, the rows so far, packed, the next file, and those after it.
#[derive(Drop)]
pub struct Reading {
    pub(crate) schema: TableSchema,
    pub(crate) id: u64,
    pub(crate) rows: PackedRows,
    pub(crate) next: ChangesFile,
    pub(crate) rest: VecDeque<ChangesFile>,
}

impl Model for Reading {
    ghost use Rattle.pm_merged_log.specs.Merged.{HaveOwnKeys};
    ghost use Rattle.pm_read_frame.specs.Reading.{reading_of, ReadingView};

    ghost Value = { ReadingView };

    ghost view = { λ r. reading_of r.schema r.id r.rows r.next r.rest.items };

    ghost invariant = { λ r. HaveOwnKeys r.schema r.rows };
}
