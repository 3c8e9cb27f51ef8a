//! Rows that are read straight from the bytes of a file that is as it is written here, without the data between. Where
//! none are answered, they are read by their data, which also finds the refusal.

ghost use Rattle.std.specs.Prelude.{◌≡◌, ◌≢◌, ◌<◌, ◌≤◌, ◌-◌, ◌++◌, List, [], ℕ, Ok, Some, IfOk, IfSome};
ghost use Rattle.std.specs.Prelude.{MatchOption, drop, length, pos, take};
ghost use Rattle.pm_avro_data.specs.Datum.{int, long};
ghost use Rattle.pm_avro_data.specs.Number.{IsInt, IsLong};
ghost use Rattle.pm_avro_file.specs.Reader.{IsOpened};
ghost use Rattle.pm_values.specs.Kind.{code_of};
ghost use Rattle.pm_run_bytes.specs.Block.{JudgesBlock, ReadsBlock};
ghost use Rattle.pm_run_bytes.specs.Direct.{AreRows, HasContent, IsCell, IsDirect, IsDirectOr, IsWritten};
ghost use Rattle.pm_run.specs.Row.{most_sequence, row_kind};
ghost use Rattle.pm_run.specs.Rows.{Opened};
ghost use Rattle.pm_run_scalars.specs.Spelled.{IsSpelled};
ghost use Rattle.pm_row_slots.specs.Seen.{seen_row, seen_value};

use crate::judge::{judge_rows, see_row};
use crate::same::is_written;
use pm_avro_file::FileReader;
use pm_row_slots::{Seen, SeenRow, values_of};
use pm_run::Field;
use pm_run_form::{MOST_SEQUENCE, RowsRead, TableForm, keeps_kind, last_key, may_follow};
use pm_run_scalars::{read_int, read_long, read_size, see_scalar};
use pm_schema::EngineKind;
use pm_values::{Key, Kind, Row, Stamped};
use std::alloc::{AllocError, Global};

/// How many bytes a file's marker has.
const MARKER: usize = 16;

/// The marker that ends the blocks of a file that is as it is written here.
pub struct Direct {
    pub(crate) marker: Vec<u8>,
}

impl Drop for Direct {
    fn drop(self) {
        let Direct { marker } = self;
    }
}

impl Direct {
    /// The marker of an opened file of a table of this form, if it is as it is written.
    pub fn of(
        alloc: Global,
        form: &TableForm,
        file: &FileReader,
    ) -> Result<Option<Direct>, AllocError>
        requires { IsOpened file.now.bytes file.now }
        ensures { IfOk result (λ direct. IsDirectOr direct form.now file.now) }
    {
        if !is_written(alloc, file.kind(), form)? {
            return Ok(None);
        }
        let Some(marker) = marker_before(file.bytes(), file.first()) else {
            return Ok(None);
        };
        let marker = Vec::from_slice(alloc, marker)?;
        Ok(Some(Direct { marker }))
    }

    /// The rows of the block at an offset of the file's bytes, after one with the key before, and the offset after it.
    pub fn read_block(
        &self,
        alloc: Global,
        form: &TableForm,
        changes: bool,
        bytes: &[u8],
        offset: usize,
        before: &Option<Key>,
    ) -> Option<(RowsRead, usize)>
        ensures { IfSome result (λ read. (o : Opened) → o.form ≡ form.now → o.changes ≡ changes
            → o.file.bytes ≡ bytes.now → IsDirect self.now form.now o.file
            → ReadsBlock o offset before.now (Ok (Some read))) }
    {
        let (count, content, next) = self.content(alloc, bytes, offset)?;
        let rows = read_rows(alloc, form, changes, before, count, content)?;
        let read = RowsRead {
            rows,
            refusal: None,
        };
        Some((read, next))
    }

    /// Judges the rows of the block at an offset of the file's bytes, after one with the key before: the key of the
    /// last of them, and the offset after the block. A block without rows isn't judged here.
    pub fn judge_block(
        &self,
        alloc: Global,
        form: &TableForm,
        changes: bool,
        bytes: &[u8],
        offset: usize,
        before: &Option<Key>,
    ) -> Option<(Option<Key>, usize)>
        ensures { IfSome result (λ judged. (o : Opened) → o.form ≡ form.now → o.changes ≡ changes
            → o.file.bytes ≡ bytes.now → IsDirect self.now form.now o.file
            → JudgesBlock o offset before.now judged.0 judged.1) }
    {
        let (count, content, next) = self.some_content(alloc, bytes, offset)?;
        let last = judge_rows(alloc, form, changes, before, count, content)?;
        Some((last, next))
    }

    /// The same as `content` of a block that has rows.
    fn some_content<'b>(
        &self,
        alloc: Global,
        bytes: &'b [u8],
        offset: usize,
    ) -> Option<(usize, &'b [u8], usize)>
        ensures content { IfSome result (λ found.
            HasContent self.now bytes.now offset found.0 found.1.now found.2) }
        ensures some { IfSome result (λ found. 0 < found.0) }
    {
        let (count, content, next) = self.content(alloc, bytes, offset)?;
        if count == 0 {
            return None;
        }
        Some((count, content, next))
    }

    /// How many rows the block at an offset of the file's bytes has, their bytes, and the offset after it.
    pub(crate) fn content<'b>(
        &self,
        alloc: Global,
        bytes: &'b [u8],
        offset: usize,
    ) -> Option<(usize, &'b [u8], usize)>
        ensures { IfSome result (λ found. HasContent self.now bytes.now offset found.0 found.1.now found.2) }
    {
        if bytes.len() < offset {
            return None;
        }
        let (count, middle) = read_size(alloc, bytes.split_at(offset).1)?;
        let (size, left) = read_size(alloc, middle)?;
        if size < count || left.len() < size {
            return None;
        }
        let (content, after) = left.split_at(size);
        let rest = after_prefix(self.marker.as_slice(), after)?;
        Some((count, content, bytes.len() - rest.len()))
    }
}

/// The marker that ends at an offset.
fn marker_before(bytes: &[u8], end: usize) -> Option<&[u8]>
    ensures within { IfSome result (λ _. 16 ≤ end) }
    ensures marker { IfSome result (λ marker. marker.now ≡ take 16 (drop (end - 16) bytes.now)) }
{
    if end < MARKER || bytes.len() < end {
        return None;
    }
    Some(bytes.split_at(end - MARKER).1.split_at(MARKER).0)
}

/// What follows a prefix.
fn after_prefix<'b>(prefix: &[u8], bytes: &'b [u8]) -> Option<&'b [u8]>
    ensures { MatchOption result ((rest : List ℕ) → bytes.now ≢ prefix.now ++ rest)
        (λ rest. bytes.now ≡ prefix.now ++ rest.now) }
{
    bytes.strip_prefix(prefix)
}

/// As many rows after one with the key before, where they are all of the bytes.
fn read_rows(
    alloc: Global,
    form: &TableForm,
    changes: bool,
    before: &Option<Key>,
    count: usize,
    bytes: &[u8],
) -> Option<Vec<Stamped>>
    ensures rows { IfSome result (λ rows. AreRows form.now changes before.now rows.items bytes.now []) }
    ensures many { IfSome result (λ rows. length rows.items ≡ count) }
{
    let mut rows = Vec::with_capacity(alloc, count).ok()?;
    let mut seen = SeenRow::new(alloc);
    let mut rest = bytes;
    for _ in 0..count {
        let after = see_row(alloc, form, changes, rest, &mut seen)?;
        let row = copied(alloc, &seen).ok()?;
        if !may_follow(changes, last_key(before, &rows), &row.key) {
            return None;
        }
        rows.push(row).ok()?;
        rest = after;
    }
    if rest.is_empty() { Some(rows) } else { None }
}

/// The row, in memory of its own.
fn copied(alloc: Global, seen: &SeenRow) -> Result<Stamped, AllocError>
    ensures { IfOk result (λ row. row ≡ seen_row seen.now) }
{
    Ok(Stamped {
        key: Key::new(values_of(alloc, &seen.key)?),
        seq: seen.seq,
        kind: seen.kind,
        row: Row::new(values_of(alloc, &seen.row)?),
    })
}

/// The sequence number that the bytes begin with, and the rest.
#[inline(always)]
pub(crate) fn read_sequence(alloc: Global, bytes: &[u8]) -> Option<(u64, &[u8])>
    ensures long { IfSome result (λ x. IsLong (pos x.0) bytes.now x.1.now) }
    ensures written { IfSome result (λ x. IsSpelled bytes.now x.1.now (long (pos x.0))) }
    ensures within { IfSome result (λ x. x.0 ≤ most_sequence) }
{
    let (number, rest) = read_long(alloc, bytes)?;
    let number = u64::try_from(number).ok()?;
    if number <= MOST_SEQUENCE {
        Some((number, rest))
    } else {
        None
    }
}

/// The kind whose number the bytes begin with, where rows of it are kept as they are, and the rest.
#[inline(always)]
pub(crate) fn read_kind(
    alloc: Global,
    changes: bool,
    engine: EngineKind,
    bytes: &[u8],
) -> Option<(Kind, &[u8])>
    ensures number { IfSome result (λ x. IsInt (pos (code_of x.0)) bytes.now x.1.now) }
    ensures written { IfSome result (λ x. IsSpelled bytes.now x.1.now (int (pos (code_of x.0)))) }
    ensures kept { IfSome result (λ x. row_kind changes engine x.0 ≡ Ok x.0) }
{
    let (number, rest) = read_int(alloc, bytes)?;
    let kind = Kind::from_code(i64::from(number))?;
    if keeps_kind(changes, engine, kind) {
        Some((kind, rest))
    } else {
        None
    }
}

/// The value of a field that the bytes begin with, where it lies, and the rest. That of one that may be null stands
/// after the index of its branch.
#[inline(always)]
pub(crate) fn see_value<'b>(
    alloc: Global,
    field: &Field,
    bytes: &'b [u8],
) -> Option<(Seen<'b>, &'b [u8])>
    ensures { IfSome result (λ x. IsCell field.now (seen_value x.0) bytes.now x.1.now) }
{
    if !field.nullable {
        return see_scalar(alloc, field.kind, bytes);
    }
    match bytes.split_first()? {
        (0, rest) => Some((Seen::Null, rest)),
        (2, rest) => see_scalar(alloc, field.kind, rest),
        _ => None,
    }
}
