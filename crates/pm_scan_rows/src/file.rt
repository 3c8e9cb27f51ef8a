//! The rows of a file that was read.

ghost use Rattle.std.specs.Prelude.{◌≡◌, None, IfErr, IfOk, IsTrue, OnOk};
ghost use Rattle.pm_run.specs.Order.{last_key};
ghost use Rattle.pm_run.specs.Reader.{StopsAfter};
ghost use Rattle.pm_run.specs.Rows.{Follow};
ghost use Rattle.pm_run_bytes.specs.Lying.{GivesFirst};
ghost use Rattle.pm_scan_rows.specs.Stored.{left_in, rows_of};

use pm_row_slots::RowSlot;
use pm_run_bytes::FileRows;
use pm_run_form::TableForm;
use pm_run_reader::{JudgedFile, RunReader};
use pm_values::{Key, Refusal, Stamped};
use std::alloc::{AllocError, Global};

/// A file whose rows lie in its bytes, or the rows of another.
pub(crate) enum ReadFile {
    Lying(JudgedFile),
    Decoded(Vec<Stamped>),
}

impl Drop for ReadFile {
    fn drop(self) {
        match self {
            ReadFile::Lying(_a) => {}
            ReadFile::Decoded(_a) => {}
        }
    }
}

/// The rows of a file that are still to be given.
pub(crate) enum RowsLeft<'b> {
    Lying(FileRows<'b>),
    Decoded(&'b [Stamped]),
}

impl Drop for RowsLeft<'_> {
    fn drop(self) {
        match self {
            RowsLeft::Lying(_a) => {}
            RowsLeft::Decoded(_a) => {}
        }
    }
}

impl ReadFile {
    /// The rows of a file, of which the first has to follow one with the key before, and the key of the last of them,
    /// or that one. Refusals are those of `RunReader::next`.
    pub(crate) fn of(
        alloc: Global,
        reader: RunReader,
        before: &Option<Key>,
    ) -> Result<(ReadFile, Option<Key>), Refusal>
        ensures follow { IfOk result (λ read.
            Follow reader.opened reader.opened.file.first before.now (rows_of read.0) None) }
        ensures last { IfOk result (λ read. read.1 ≡ last_key before.now (rows_of read.0)) }
        ensures refuses { IfErr result (StopsAfter reader.opened before.now) }
    {
        match reader.judged(alloc, before) {
            Ok((file, last)) => Ok((ReadFile::Lying(file), last)),
            Err(reader) => {
                let read = reader.rows_after(alloc, before);
                drop(reader);
                let (rows, last) = read?;
                Ok((ReadFile::Decoded(rows), last))
            }
        }
    }

    /// Its rows, one after another.
    pub(crate) fn rows(&self) -> RowsLeft<'_>
        ensures { left_in result ≡ rows_of self.now }
    {
        match self {
            ReadFile::Lying(file) => RowsLeft::Lying(file.rows()),
            ReadFile::Decoded(rows) => RowsLeft::Decoded(rows.as_slice()),
        }
    }
}

impl<'b> RowsLeft<'b> {
    /// Puts the next row into an empty place, or none at the end.
    pub(crate) fn fill(&mut self, alloc: Global, slot: &mut RowSlot<'b>) -> Result<(), AllocError>
        requires { slot.old ≡ None }
        ensures { OnOk result (GivesFirst (left_in self.old) slot.new (left_in self.new)) }
    {
        match self {
            RowsLeft::Lying(rows) => rows.fill(alloc, slot),
            RowsLeft::Decoded(rest) => lend_first(rest, slot),
        }
    }
}

impl<'b> RowsLeft<'b> {
    ghost use Rattle.pm_run.specs.Form.{Form};
    ghost use Rattle.pm_run_bytes.specs.Lying.{HasContentOf};
    ghost use Rattle.pm_scan_rows.specs.Stored.{IsOfForm};

    /// The same as `fill`, and the row's bytes, where it lies in those of a file.
    pub(crate) fn fill_written(
        &mut self,
        alloc: Global,
        slot: &mut RowSlot<'b>,
    ) -> Result<Option<&'b [u8]>, AllocError>
        requires { slot.old ≡ None }
        ensures first { OnOk result (GivesFirst (left_in self.old) slot.new (left_in self.new)) }
        ensures written { IfOk result (λ content. (f : Form) → IsOfForm f self.old
            → HasContentOf f slot.new content × IsOfForm f self.new) }
    {
        match self {
            RowsLeft::Lying(rows) => Ok(Some(rows.fill_written(alloc, slot)?)),
            RowsLeft::Decoded(rest) => {
                lend_first(rest, slot)?;
                Ok(None)
            }
        }
    }

    /// Whether it is known that its rows are of a form, where they lie in the bytes of a file.
    pub(crate) fn has_form(&self, form: &TableForm) -> bool
        ensures { IsTrue result → IsOfForm form.now self.now }
    {
        match self {
            RowsLeft::Lying(rows) => rows.has_form(form),
            RowsLeft::Decoded(_) => true,
        }
    }
}

/// Puts the first of the rows into an empty place, lent, or none; those after it are left.
fn lend_first<'b>(rest: &mut &'b [Stamped], slot: &mut RowSlot<'b>) -> Result<(), AllocError>
    requires { slot.old ≡ None }
    ensures { OnOk result (GivesFirst rest.old.now slot.new rest.new.now) }
{
    let Some((first, others)) = rest.split_first() else {
        return Ok(());
    };
    slot.lend(first)?;
    *rest = others;
    Ok(())
}
