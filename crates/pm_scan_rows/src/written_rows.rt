//! The rows of a run that was read, one after another, with their bytes.

ghost use Rattle.std.specs.Prelude.{◌≡◌, [], ◌++◌, List, None, Option, IfOk, IsTrue, OnOk, map};
ghost use Rattle.std.specs.List.{AllByRecursion};
ghost use Rattle.pm_run.specs.Form.{Form};
ghost use Rattle.pm_run_bytes.specs.Lying.{GivesFirst, HasContentOf};
ghost use Rattle.pm_scan_rows.specs.Stored.{AreGivenFor, all_of, left_in, run_left};
ghost use Rattle.pm_values.specs.declared.record.Stamped.{Stamped};

use crate::rows::StoredRows;
use crate::stored_run::StoredRun;
use pm_merge::RowSource;
use pm_run_bytes::WrittenPlace;
use pm_run_form::TableForm;
use pm_values::Refusal;
use std::alloc::{AllocError, Global};

/// The rows of a run that are still to be given, with their bytes where these are known to be those that are written of
/// a form.
pub struct WrittenRows<'b> {
    pub(crate) rows: StoredRows<'b>,
    pub(crate) form: &'b TableForm,
    /// Whether the file in hand has rows of the form.
    pub(crate) alike: bool,
}

impl Drop for WrittenRows<'_> {
    fn drop(self) {
        let WrittenRows { rows, form, alike } = self;
    }
}

/// The rows of runs, with their bytes, for files that are written of a form.
pub fn written_sources<'b>(
    alloc: Global,
    runs: &'b [StoredRun],
    form: &'b TableForm,
) -> Result<Vec<WrittenRows<'b>>, AllocError>
    ensures left { IfOk result (λ sources. map (λ r. run_left r.rows) sources.items ≡ runs.now) }
    ensures form { IfOk result (λ sources. AllByRecursion (AreGivenFor form.now) sources.items) }
{
    let mut sources = Vec::new(alloc);
    for run in runs {
        sources.push(run.written_rows(form))?;
    }
    Ok(sources)
}

impl<'b> RowSource<WrittenPlace<'b>> for WrittenRows<'b> {
    ghost use Rattle.pm_run.specs.Form.{form_of};
    ghost use Rattle.pm_scan_rows.specs.Stored.{AreGivenFor, rest_of};

    ghost rest = { λ r. rest_of r.rows };

    ghost fits = { λ r table. AreGivenFor (form_of table) r };

    fn fill(&mut self, alloc: Global, place: &mut WrittenPlace<'b>) -> Result<(), Refusal> {
        self.fill_own(alloc, place)?;
        if !place.slot.is_none() {
            return Ok(());
        }
        self.fill_later(alloc, place)?;
        Ok(())
    }
}

impl<'b> WrittenRows<'b> {
    /// Puts the next row of the file in hand into an empty place, or none.
    fn fill_own(&mut self, alloc: Global, place: &mut WrittenPlace<'b>) -> Result<(), AllocError>
        requires { place.old.slot ≡ None }
        ensures first { OnOk result
            (GivesFirst (left_in self.old.rows.own) place.new.slot (left_in self.new.rows.own)) }
        ensures files { OnOk result (self.new.rows.files.now ≡ self.old.rows.files.now) }
        ensures form { OnOk result ((f : Form) → AreGivenFor f self.old
            → AreGivenFor f self.new × HasContentOf f place.new.slot place.new.content) }
    {
        let content = self.rows.own.fill_written(alloc, &mut place.slot)?;
        place.content = only_where(self.alike, content);
        Ok(())
    }

    /// The same where the file in hand has no row more: the first row of the next file that has one.
    fn fill_later(&mut self, alloc: Global, place: &mut WrittenPlace<'b>) -> Result<(), AllocError>
        requires over { left_in self.old.rows.own ≡ [] }
        requires none { place.old.slot ≡ None }
        ensures first { OnOk result
            (GivesFirst (all_of self.old.rows.files.now) place.new.slot (run_left self.new.rows)) }
        ensures form { OnOk result ((f : Form) → AreGivenFor f self.old
            → AreGivenFor f self.new × HasContentOf f place.new.slot place.new.content) }
    {
        while let Some((file, files)) = self.rows.files.split_first() {
            self.rows.own = file.rows();
            self.rows.files = files;
            self.alike = self.rows.own.has_form(self.form);
            self.fill_own(alloc, place)?;
            if !place.slot.is_none() {
                return Ok(());
            }
        }
        Ok(())
    }
}

/// The bytes of a row, where something holds.
#[inline(always)]
fn only_where<'b>(holds: bool, content: Option<&'b [u8]>) -> Option<&'b [u8]>
    ensures { (f : Form) (row : Option Stamped) → (IsTrue holds → HasContentOf f row content.entry)
        → HasContentOf f row result }
{
    if holds {
        return content;
    }
    None
}
