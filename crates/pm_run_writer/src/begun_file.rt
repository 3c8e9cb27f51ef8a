//! A file of rows that is written row by row.

ghost use Rattle.std.specs.Prelude.{◌≡◌, ◌++◌, ◌∷◌, [], ◌<◌, ◌≤◌, ℕ, List, IfOk, OnOk, length, map, false, true};
ghost use Rattle.std.specs.List.{AllByRecursion};
ghost use Rattle.pm_avro_data.specs.Adding.{Adds};
ghost use Rattle.pm_avro_data.specs.Datum.{Data};
ghost use Rattle.pm_avro_file.specs.Begun.{AreEncoded, IsBegun};
ghost use Rattle.pm_avro_schema.specs.Avro.{Avro, takes_no_byte};
ghost use Rattle.pm_avro_schema.specs.Readable.{IsReadable};
ghost use Rattle.pm_avro_schema.specs.View as types;
ghost use Rattle.pm_record.specs.File.{IsFileOf};
ghost use Rattle.pm_record.specs.Record as records;
ghost use Rattle.pm_row_slots.specs.Slot.{placed_row};
ghost use Rattle.pm_values.specs.declared.record.Stamped.{Stamped as StampedView};
ghost use Rattle.pm_run.specs.Form.{Form, written_fields};
ghost use Rattle.pm_run.specs.Kinds.{run_type};
ghost use Rattle.pm_run.specs.Row.{row_data};
ghost use Rattle.pm_run.specs.Typed.{IsWritable};
ghost use Rattle.pm_run_writer.specs.Begun.{HasBegun};

use crate::row_writer::add_row;
use pm_avro_file::{add_block, begin_file, begun_file_law};
use pm_avro_schema::AvroType;
use pm_row_slots::PlacedRow;
use pm_run_form::TableForm;
use pm_values::Stamped;
use std::alloc::{AllocError, Global};

/// How many rows stand in a block at most.
const MOST_IN_BLOCK: usize = 1024;

/// A file of rows that was begun: the bytes of its full blocks, and those of the rows of the block that comes next.
pub(crate) struct BegunFile {
    out: Vec<u8>,
    block: Vec<u8>,
    count: usize,
    marker: [u8; 16],
}

impl Drop for BegunFile {
    fn drop(self) {
        let BegunFile {
            out,
            block,
            count,
            marker,
        } = self;
    }
}

/// The bytes of the file of some rows.
pub(crate) fn write_rows(
    alloc: Global,
    kind: &AvroType,
    form: &TableForm,
    rows: &[Stamped],
    marker: [u8; 16],
) -> Result<Vec<u8>, AllocError>
    requires kind { types.view kind.now ≡ run_type form.now }
    requires differ { records.all_differ (written_fields form.now) ≡ true }
    ensures file { IfOk result (λ v.
        IsFileOf (run_type form.now) 1024 (map (row_data form.now) rows.now) marker v.items) }
    ensures writable { IfOk result (λ v. AllByRecursion (IsWritable form.now) rows.now) }
{
    let mut file = BegunFile::begin(alloc, kind, marker)?;
    for row in rows {
        file.add(form, PlacedRow::Own(row))?;
    }
    let bytes = file.finish()?;
    Ok(bytes)
}

impl BegunFile {
    /// A file without rows yet.
    pub(crate) fn begin(
        alloc: Global,
        kind: &AvroType,
        marker: [u8; 16],
    ) -> Result<BegunFile, AllocError>
        requires readable { IsReadable (types.view kind.now) }
        requires some { takes_no_byte (types.view kind.now) ≡ false }
        ensures begun { IfOk result (λ file. (f : Form) → types.view kind.now ≡ run_type f
            → HasBegun f marker [] file) }
        ensures room { IfOk result (λ file. file.count ≤ 1024) }
    {
        let Ok(out) = begin_file(alloc, kind, &marker) else {
            return Err(AllocError);
        };
        Ok(BegunFile {
            out,
            block: Vec::new(alloc),
            count: 0,
            marker,
        })
    }

    /// Makes room for so many bytes of the file at once. Without memory for them it grows as it is written.
    pub(crate) fn reserve(&mut self, bytes: usize)
        ensures begun { (f : Form) (marker : List ℕ) (rows : List StampedView) → HasBegun f marker rows self.old
            → HasBegun f marker rows self.new }
        ensures count { self.new.count ≡ self.old.count }
    {
        let _ = self.out.try_reserve_exact(bytes);
    }

    /// Adds a row.
    pub(crate) fn add(&mut self, form: &TableForm, row: PlacedRow) -> Result<(), AllocError>
        requires within { self.old.count ≤ 1024 }
        ensures begun { OnOk result ((marker : List ℕ) (rows : List StampedView) →
            HasBegun form.now marker rows self.old
            → HasBegun form.now marker (rows ++ placed_row row.entry ∷ []) self.new) }
        ensures within { OnOk result (self.new.count ≤ 1024) }
    {
        self.make_room()?;
        add_row(&mut self.block, form, row)?;
        self.count += 1;
        Ok(())
    }

    /// Adds a row of which these are the bytes that are written: they are copied.
    #[inline(always)]
    pub(crate) fn add_written(&mut self, content: &[u8]) -> Result<(), AllocError>
        requires within { self.old.count ≤ 1024 }
        ensures begun { OnOk result ((f : Form) (marker : List ℕ) (rows : List StampedView) (x : StampedView) →
            IsWritable f x → Adds [] content.now (row_data f x) → HasBegun f marker rows self.old
            → HasBegun f marker (rows ++ x ∷ []) self.new) }
        ensures within { OnOk result (self.new.count ≤ 1024) }
    {
        self.make_room()?;
        self.block.extend_from_slice(content)?;
        self.count += 1;
        Ok(())
    }

    /// Ends the block that comes next where it is full.
    #[inline(always)]
    fn make_room(&mut self) -> Result<(), AllocError>
        requires within { self.old.count ≤ 1024 }
        ensures begun { OnOk result ((f : Form) (marker : List ℕ) (rows : List StampedView) →
            HasBegun f marker rows self.old → HasBegun f marker rows self.new) }
        ensures room { OnOk result (self.new.count < 1024) }
    {
        if self.count < MOST_IN_BLOCK {
            return Ok(());
        }
        self.end_block()?;
        Ok(())
    }

    /// Ends the block that comes next.
    fn end_block(&mut self) -> Result<(), AllocError>
        requires within { self.old.count ≤ 1024 }
        ensures begun { OnOk result ((t : Avro) (blocks : List (List Data)) (ds : List Data) →
            IsBegun t self.old.marker blocks self.old.out.items → AreEncoded t ds self.old.block.items
            → self.old.count ≡ length ds → IsBegun t self.old.marker (blocks ++ ds ∷ []) self.new.out.items) }
        ensures block { OnOk result (self.new.block.items ≡ []) }
        ensures count { OnOk result (self.new.count ≡ 0) }
        ensures marker { OnOk result (self.new.marker ≡ self.old.marker) }
    {
        add_block(&mut self.out, self.count, &self.block, &self.marker)?;
        self.block.clear();
        self.count = 0;
        Ok(())
    }

    /// Ends the block that comes next where it has a row.
    fn end_last(&mut self) -> Result<(), AllocError>
        requires within { self.old.count ≤ 1024 }
        ensures { OnOk result ((f : Form) (marker : List ℕ) (rows : List StampedView) → HasBegun f marker rows self.old
            → IsFileOf (run_type f) 1024 (map (row_data f) rows) marker self.new.out.items) }
    {
        begun_file_law();
        if self.count == 0 {
            return Ok(());
        }
        self.end_block()?;
        Ok(())
    }

    /// The bytes of the file.
    pub(crate) fn finish(self) -> Result<Vec<u8>, AllocError>
        requires within { self.count ≤ 1024 }
        ensures { IfOk result (λ v. (f : Form) (marker : List ℕ) (rows : List StampedView) → HasBegun f marker rows self
            → IsFileOf (run_type f) 1024 (map (row_data f) rows) marker v.items) }
    {
        let mut file = self;
        file.end_last()?;
        Ok(file.into_bytes())
    }

    /// The bytes of the blocks that were ended.
    fn into_bytes(self) -> Vec<u8>
        ensures { result.items ≡ self.out.items }
    {
        let BegunFile {
            out,
            block,
            count,
            marker,
        } = self;
        out
    }
}
