//! The files of a run that is written row by row.

ghost use Rattle.std.specs.Prelude.{◌≡◌, ◌+◌, ◌<◌, ◌≤◌, ◌∷◌, [], ◌++◌, ℕ, List, IfOk, None, OnOk, Some, false, true};
ghost use Rattle.std.specs.Prelude.{length, option_map, option_to_list};
ghost use Rattle.pm_row_slots.specs.Slot.{placed_row};
ghost use Rattle.pm_schema.specs.declared.schema.TableSchema.{TableSchema};
ghost use Rattle.pm_values.specs.Names.{counted};
ghost use Rattle.pm_values.specs.declared.record.Stamped.{Stamped as StampedView};
ghost use Rattle.pm_run.specs.Form.{form_of};
ghost use Rattle.pm_run.specs.Writing.{IsFileWith};
ghost use Rattle.pm_run_bytes.specs.Lying.{HasContentOf};
ghost use Rattle.pm_run_writer.specs.Begun.{HasBegun};
ghost use Rattle.pm_run_writer.specs.Summary.{IsSummary};
ghost use Rattle.pm_run_writer.specs.Written.{CanEnd, CanWrite, HasEnded, HasFinished, HasFinishedChanges};
ghost use Rattle.pm_run_writer.specs.Written.{HasFullFile, HasInHand, IsLastOf, IsWriterOf, IsWriting};

use crate::begun_file::BegunFile;
use crate::placed::key_of;
use crate::summary::RowSummary;
use crate::writer::FileWriter;
use pm_base::{Blob, Txt};
use pm_row_slots::{PlacedRow, RowSlot};
use pm_run::RunFile;
use pm_run_bytes::WrittenPlace;
use pm_run_form::TableForm;
use pm_schema::TableSchema;
use pm_values::{Key, Names};
use std::alloc::{AllocError, Global};
use std::mem;

/// What writes the files of a run row by row, from where the rows stand: the file in hand, and its last row, in its
/// place.
pub struct RunWriter<'b> {
    writer: FileWriter,
    limit: usize,
    level: u32,
    file: BegunFile,
    summary: RowSummary,
    last: Box<WrittenPlace<'b>>,
}

impl Drop for RunWriter<'_> {
    fn drop(self) {
        let RunWriter {
            writer,
            limit,
            level,
            file,
            summary,
            last,
        } = self;
    }
}

impl<'b> RunWriter<'b> {
    /// A writer of files of at most so many rows each, all but the last of exactly so many, of a table of the schema,
    /// at a level. Where names of fields don't differ, which no schema's rules allow, the answer is out of memory.
    pub fn begin(
        alloc: Global,
        schema: &TableSchema,
        limit: usize,
        level: u32,
        names: &Names,
    ) -> Result<RunWriter<'b>, AllocError>
        requires limit { 1 ≤ limit }
        ensures none { IfOk result (HasInHand schema.now limit level names.now.session []) }
        ensures ready { IfOk result IsWriting }
    {
        let writer = FileWriter::of(alloc, schema)?;
        let file = begun(alloc, &writer, names.session())?;
        Ok(RunWriter {
            writer,
            limit,
            level,
            file,
            summary: RowSummary::none(),
            last: Box::new(alloc, no_row(alloc))?,
        })
    }

    /// Makes room for so many bytes of the file in hand at once. Without memory for them it grows as it is written.
    pub fn reserve(&mut self, bytes: usize)
        ensures kept { (s : TableSchema) (limit level : ℕ) (marker : List ℕ) (rows : List StampedView)
            → HasInHand s limit level marker rows self.old → HasInHand s limit level marker rows self.new }
        ensures ready { IsWriting self.old → IsWriting self.new }
    {
        self.file.reserve(bytes);
    }

    /// Writes the row of a place, which leaves it, to the file in hand, and answers whether the file is full: then it
    /// has to be ended before the next row. Bytes that stand with the row are copied: they have to be those that are
    /// written of it, which isn't tested. Out of memory is also answered where no row stands there, and, where its
    /// bytes aren't known, where it has another number of values than the schema has columns, where a value isn't of
    /// its column's type, and where the sequence number is above 2^62 - 1; then nothing is said of what was written.
    pub fn put(
        &mut self,
        alloc: Global,
        place: &mut Box<WrittenPlace<'b>>,
    ) -> Result<bool, AllocError>
        requires ready { IsWriting self.old }
        ensures more { OnOk result ((s : TableSchema) (limit level : ℕ) (marker : List ℕ) (rows : List StampedView)
            (x : StampedView) → place.old.value.slot ≡ Some x
            → HasContentOf (form_of s) (Some x) place.old.value.content
            → HasInHand s limit level marker rows self.old
            → HasInHand s limit level marker (rows ++ x ∷ []) self.new) }
        ensures full { IfOk result (λ full. full ≡ true → HasFullFile self.new) }
        ensures room { IfOk result (λ full. full ≡ false → IsWriting self.new) }
        ensures ready { OnOk result (CanEnd self.new) }
        ensures empty { OnOk result (place.new.value.slot ≡ None) }
    {
        write_row(
            alloc,
            &self.writer.form,
            place,
            &mut self.file,
            &mut self.summary,
        )?;
        mem::swap(&mut self.last, place);
        place.slot.clear();
        Ok(self.summary.count >= self.limit)
    }

    /// The file of the rows in hand, if there are any: those that were written since a file was handed out.
    pub fn finish(
        &mut self,
        alloc: Global,
        names: &mut Names,
    ) -> Result<Option<RunFile>, AllocError>
        requires ready { IsWriting self.old }
        requires count { names.old.count < 18446744073709551615 }
        ensures finished { IfOk result (λ file. (s : TableSchema) (limit level : ℕ) (rows : List StampedView)
            → HasInHand s limit level names.old.session rows self.old
            → HasFinished s limit level names.old rows file self.new) }
        ensures ready { OnOk result (IsWriting self.new) }
        ensures names { names.new ≡ record names.old { count = names.new.count } }
        ensures counted { names.old.count ≤ names.new.count }
        ensures taken { IfOk result (λ file. names.new.count ≡ names.old.count + length (option_to_list file)) }
    {
        let rows = self.summary.count;
        if rows == 0 {
            return Ok(None);
        }
        Ok(Some(self.end(alloc, names)?))
    }

    /// The changelog file of the rows in hand, if there are any: those that were written since a file was handed out.
    pub fn finish_changes(
        self,
        alloc: Global,
        names: &mut Names,
    ) -> Result<Option<RunFile>, AllocError>
        requires ready { IsWriting self }
        requires count { names.old.count < 18446744073709551615 }
        ensures finished { IfOk result (λ file. (s : TableSchema) (limit level : ℕ) (rows : List StampedView)
            → HasInHand s limit level names.old.session rows self.entry
            → HasFinishedChanges s level names.old rows file) }
        ensures names { names.new ≡ record names.old { count = names.new.count } }
        ensures counted { (names.old.count ≤ names.new.count) × (names.new.count ≤ names.old.count + 1) }
        ensures taken { IfOk result (λ file. names.new.count ≡ names.old.count + length (option_to_list file)) }
    {
        let RunWriter {
            writer,
            limit: _,
            level,
            file,
            summary,
            last,
        } = self;
        if summary.count == 0 {
            return Ok(None);
        }
        let name = names.take(alloc, "changelog-", ".avro")?;
        let changes = file_of(alloc, &writer, file, summary, &last.slot, level, name)?;
        Ok(Some(changes))
    }

    /// The file in hand, which is ended. The next one has no row yet. Out of memory is also answered where no row is in
    /// hand.
    pub fn end(&mut self, alloc: Global, names: &mut Names) -> Result<RunFile, AllocError>
        requires ready { CanEnd self.old }
        requires count { names.old.count < 18446744073709551615 }
        ensures ended { IfOk result (λ f. (s : TableSchema) (limit level : ℕ) (rows : List StampedView)
            → HasInHand s limit level names.old.session rows self.old
            → HasEnded s limit level names.old rows f self.new) }
        ensures ready { OnOk result (IsWriting self.new) }
        ensures names { names.new ≡ record names.old { count = names.new.count } }
        ensures counted { names.old.count ≤ names.new.count }
        ensures taken { OnOk result (names.new ≡ counted names.old) }
    {
        let next = begun(alloc, &self.writer, names.session())?;
        let name = names.take(alloc, "data-", ".avro")?;
        let rows = mem::replace(&mut self.file, next);
        let summary = mem::replace(&mut self.summary, RowSummary::none());
        let file = file_of(
            alloc,
            &self.writer,
            rows,
            summary,
            &self.last.slot,
            self.level,
            name,
        )?;
        self.last.slot.clear();
        Ok(file)
    }
}

/// A file without rows yet.
fn begun(alloc: Global, writer: &FileWriter, marker: [u8; 16]) -> Result<BegunFile, AllocError>
    requires { CanWrite writer.now }
    ensures begun { IfOk result (λ file. (s : TableSchema) → IsWriterOf s writer.now
        → HasBegun (form_of s) marker [] file) }
    ensures within { IfOk result (λ file. file.count ≤ 1024) }
{
    let file = BegunFile::begin(alloc, &writer.kind, marker)?;
    Ok(file)
}

/// A place without a row.
fn no_row<'b>(alloc: Global) -> WrittenPlace<'b>
    ensures { result.slot ≡ None }
{
    WrittenPlace {
        slot: RowSlot::new(alloc),
        content: None,
    }
}

/// Writes the row of a place to a file that was begun.
fn write_row(
    alloc: Global,
    form: &TableForm,
    place: &WrittenPlace,
    file: &mut BegunFile,
    summary: &mut RowSummary,
) -> Result<(), AllocError>
    requires within { file.old.count ≤ 1024 }
    requires room { summary.old.count < 18446744073709551615 }
    ensures begun { OnOk result ((marker : List ℕ) (rows : List StampedView) (x : StampedView)
        → place.now.slot ≡ Some x → HasContentOf form.now (Some x) place.now.content
        → HasBegun form.now marker rows file.old → HasBegun form.now marker (rows ++ x ∷ []) file.new) }
    ensures within { OnOk result (file.new.count ≤ 1024) }
    ensures summary { OnOk result ((rows : List StampedView) (x : StampedView) → place.now.slot ≡ Some x
        → IsSummary rows summary.old → IsSummary (rows ++ x ∷ []) summary.new) }
{
    let Some(row) = place.slot.row() else {
        return Err(AllocError);
    };
    add_placed(form, row, place.content, file)?;
    summary.add(alloc, row)?;
    Ok(())
}

/// Adds a row to a file that was begun, by a copy of the bytes that are written of it, where they are known.
#[inline(always)]
fn add_placed(
    form: &TableForm,
    row: PlacedRow,
    content: Option<&[u8]>,
    file: &mut BegunFile,
) -> Result<(), AllocError>
    requires within { file.old.count ≤ 1024 }
    ensures begun { OnOk result ((marker : List ℕ) (rows : List StampedView)
        → HasContentOf form.now (Some (placed_row row.entry)) content.entry
        → HasBegun form.now marker rows file.old
        → HasBegun form.now marker (rows ++ placed_row row.entry ∷ []) file.new) }
    ensures within { OnOk result (file.new.count ≤ 1024) }
{
    match content {
        Some(content) => file.add_written(content),
        None => file.add(form, row),
    }
}

/// The file of rows that were written to one, of which the last stands in a place.
fn file_of(
    alloc: Global,
    writer: &FileWriter,
    file: BegunFile,
    summary: RowSummary,
    last: &RowSlot,
    level: u32,
    name: Txt,
) -> Result<RunFile, AllocError>
    requires within { file.count ≤ 1024 }
    ensures { IfOk result (λ f. (s : TableSchema) (marker : List ℕ) (rows : List StampedView) → IsWriterOf s writer.now
        → HasBegun (form_of s) marker rows file → IsSummary rows summary → IsLastOf rows last.now
        → IsFileWith s level marker name rows f) }
{
    let max_key = placed_key(alloc, last)?;
    let bytes = file.finish()?;
    let size = bytes.len() as u64;
    let meta = summary.meta(name, size, max_key, writer.schema_id, level)?;
    Ok(RunFile {
        meta,
        bytes: Blob::new(bytes),
    })
}

/// The key of the row of a place; out of memory where there is none.
fn placed_key(alloc: Global, place: &RowSlot) -> Result<Key, AllocError>
    ensures { IfOk result (λ key. option_map (λ (x : StampedView). x.key) place.now ≡ Some key) }
{
    match place.row() {
        Some(row) => key_of(alloc, row),
        None => Err(AllocError),
    }
}
