//! What is known of the rows of a file that is written row by row.

ghost use Rattle.std.specs.Prelude.{◌≡◌, ◌<◌, ◌≤◌, ◌+◌, ◌∷◌, [], ◌++◌, ℕ, List, IfOk, None, OnOk, Some, length};
ghost use Rattle.pm_row_slots.specs.Slot.{placed_row};
ghost use Rattle.pm_schema.specs.declared.schema.TableSchema.{TableSchema};
ghost use Rattle.pm_values.specs.declared.record.Stamped.{Stamped as StampedView};
ghost use Rattle.pm_run.specs.Order.{last_key};
ghost use Rattle.pm_run.specs.Writing.{IsMetaOf};
ghost use Rattle.pm_run_writer.specs.Summary.{IsSummary};

use crate::placed::{key_of, number_of};
use pm_base::Txt;
use pm_row_slots::PlacedRow;
use pm_values::{FileMeta, Key};
use std::alloc::{AllocError, Global};
use std::mem;

/// How many the rows are, the key of the first, and the least and the greatest of their sequence numbers.
pub(crate) struct RowSummary {
    pub(crate) count: usize,
    first: Option<Key>,
    least: u64,
    greatest: u64,
}

impl Drop for RowSummary {
    fn drop(self) {
        let RowSummary {
            count,
            first,
            least,
            greatest,
        } = self;
    }
}

impl RowSummary {
    /// That of no rows.
    pub(crate) fn none() -> RowSummary
        ensures { IsSummary [] result }
    {
        RowSummary {
            count: 0,
            first: None,
            least: 0,
            greatest: 0,
        }
    }

    /// Takes a row more.
    pub(crate) fn add(&mut self, alloc: Global, row: PlacedRow) -> Result<(), AllocError>
        requires room { self.old.count < 18446744073709551615 }
        ensures { OnOk result ((rows : List StampedView) → IsSummary rows self.old
            → IsSummary (rows ++ placed_row row.entry ∷ []) self.new) }
    {
        if self.count == 0 {
            self.begin(alloc, row)?;
            return Ok(());
        }
        self.extend(row);
        Ok(())
    }

    /// Takes the first row.
    fn begin(&mut self, alloc: Global, row: PlacedRow) -> Result<(), AllocError>
        requires { self.old.count ≡ 0 }
        ensures { OnOk result ((rows : List StampedView) → IsSummary rows self.old
            → IsSummary (rows ++ placed_row row.entry ∷ []) self.new) }
    {
        let key = key_of(alloc, row)?;
        drop(mem::replace(&mut self.first, Some(key)));
        self.count = 1;
        self.least = number_of(row);
        self.greatest = self.least;
        Ok(())
    }

    /// Takes a row after others.
    fn extend(&mut self, row: PlacedRow)
        requires some { 1 ≤ self.old.count }
        requires room { self.old.count < 18446744073709551615 }
        ensures { (rows : List StampedView) → IsSummary rows self.old
            → IsSummary (rows ++ placed_row row.entry ∷ []) self.new }
    {
        let number = number_of(row);
        self.count += 1;
        self.least = self.least.min(number);
        self.greatest = self.greatest.max(number);
    }

    /// What is known of the file of the rows, which has so many bytes and whose last row has the key.
    pub(crate) fn meta(
        self,
        name: Txt,
        size: u64,
        max_key: Key,
        schema_id: u64,
        level: u32,
    ) -> Result<FileMeta, AllocError>
        ensures { IfOk result (λ m. (s : TableSchema) (rows : List StampedView) (bytes : List ℕ) → IsSummary rows self
            → schema_id ≡ s.id → size ≡ length bytes → last_key None rows ≡ Some max_key
            → IsMetaOf s level name rows bytes m) }
    {
        let RowSummary {
            count,
            first,
            least,
            greatest,
        } = self;
        let Some(min_key) = first else {
            return Err(AllocError);
        };
        Ok(FileMeta {
            name,
            size,
            rows: count as u64,
            min_key,
            max_key,
            min_seq: least,
            max_seq: greatest,
            schema_id,
            level,
            created: None,
        })
    }
}
