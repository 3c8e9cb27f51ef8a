//! The rows of a run that was read, one after another.

ghost use Rattle.std.specs.Prelude.{◌≡◌, [], None, OnOk};
ghost use Rattle.pm_run_bytes.specs.Lying.{GivesFirst};
ghost use Rattle.pm_scan_rows.specs.Stored.{all_of, left_in, run_left};

use crate::file::{ReadFile, RowsLeft};
use pm_merge::RowSource;
use pm_row_slots::RowSlot;
use pm_values::Refusal;
use std::alloc::{AllocError, Global};

/// The rows of a run that are still to be given: those of a file in hand, and of the files after it.
pub struct StoredRows<'b> {
    pub(crate) own: RowsLeft<'b>,
    pub(crate) files: &'b [ReadFile],
}

impl Drop for StoredRows<'_> {
    fn drop(self) {
        let StoredRows { own, files } = self;
    }
}

impl<'b> RowSource<RowSlot<'b>> for StoredRows<'b> {
    ghost use Rattle.pm_scan_rows.specs.Stored.{rest_of};

    ghost rest = { rest_of };

    ghost fits = { λ r table. Unit {0} };

    fn fill(&mut self, alloc: Global, slot: &mut RowSlot<'b>) -> Result<(), Refusal> {
        self.own.fill(alloc, slot)?;
        if slot.is_none() {
            self.fill_later(alloc, slot)?;
        }
        Ok(())
    }
}

impl<'b> StoredRows<'b> {
    /// The same where the file in hand has no row more: the first row of the next file that has one.
    fn fill_later(&mut self, alloc: Global, slot: &mut RowSlot<'b>) -> Result<(), AllocError>
        requires over { left_in self.old.own ≡ [] }
        requires none { slot.old ≡ None }
        ensures { OnOk result (GivesFirst (all_of self.old.files.now) slot.new (run_left self.new)) }
    {
        while let Some((file, files)) = self.files.split_first() {
            self.own = file.rows();
            self.files = files;
            self.own.fill(alloc, slot)?;
            if !slot.is_none() {
                return Ok(());
            }
        }
        Ok(())
    }
}
