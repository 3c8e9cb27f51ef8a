//! The rows of a run.

ghost use Rattle.std.specs.Prelude.{◌≡◌, [], IfErr, OnErr, OnOk};
ghost use Rattle.pm_run.specs.Reader.{Appends};
ghost use Rattle.pm_scan_rows.specs.Stored.{AreGivenFor, RefusesRows, run_left};

use crate::file::{ReadFile, RowsLeft};
use crate::rows::StoredRows;
use crate::written_rows::WrittenRows;
use pm_run_form::TableForm;
use pm_run_reader::RunReader;
use pm_values::{Key, Refusal};
use std::alloc::Global;
use std::marker::Model;

/// The rows of the files that were read of a run, in their order, and the key of the last one.
pub struct StoredRun {
    files: Vec<ReadFile>,
    last: Option<Key>,
}

impl Drop for StoredRun {
    fn drop(self) {
        let StoredRun { files, last } = self;
    }
}

impl Model for StoredRun {
    ghost use Rattle.std.specs.Prelude.{◌≡◌, None};
    ghost use Rattle.pm_engine.specs.Covers.{Run};
    ghost use Rattle.pm_run.specs.Order.{last_key};
    ghost use Rattle.pm_scan_rows.specs.Stored.{all_of};

    ghost Value = { Run };

    ghost view = { λ r. all_of r.files.items };

    ghost invariant = { λ r. r.last ≡ last_key None (all_of r.files.items) };
}

impl StoredRun {
    /// A run of which no file was read yet.
    pub fn new(alloc: Global) -> StoredRun
        ensures { result ≡ [] }
    {
        StoredRun {
            files: Vec::new(alloc),
            last: None,
        }
    }

    /// Adds the rows of the next file, of which the first has to follow the last of those before. Refusals are those of
    /// `RunReader::next`; with one the run stays as it was.
    pub fn append(&mut self, alloc: Global, reader: RunReader) -> Result<(), Refusal>
        ensures appends { OnOk result (Appends reader.opened self.old self.new) }
        ensures refuses { IfErr result (RefusesRows reader.opened self.old) }
        ensures stays { OnErr result (self.new ≡ self.old) }
    {
        let (file, last) = ReadFile::of(alloc, reader, &self.last)?;
        self.files.push(file)?;
        self.last = last;
        Ok(())
    }

    /// Its rows, one after another.
    pub fn rows(&self) -> StoredRows<'_>
        ensures { run_left result ≡ self.now }
    {
        StoredRows {
            own: RowsLeft::Decoded(&[]),
            files: self.files.as_slice(),
        }
    }

    /// The same with their bytes, for files that are written of a form.
    pub fn written_rows<'b>(&'b self, form: &'b TableForm) -> WrittenRows<'b>
        ensures left { run_left result.rows ≡ self.now }
        ensures form { AreGivenFor form.now result }
    {
        WrittenRows {
            rows: self.rows(),
            form,
            alike: false,
        }
    }
}
