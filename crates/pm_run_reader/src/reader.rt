//! Files of runs and changelogs that are read row by row or block by block.

ghost use Rattle.std.specs.Prelude.{◌≡◌, ◌≤◌, ℕ, List, [], None, Some, Ok, IfErr, IfOk, IfSome, OnOk, false, length};
ghost use Rattle.pm_record.specs.File.{IsMemoryOr};
ghost use Rattle.pm_values.specs.declared.refusal.Refusal.TheVariants.{Damaged};
ghost use Rattle.pm_schema.specs.Stated.{schema_path};
ghost use Rattle.pm_run_bytes.specs.Direct.{IsDirectOr};
ghost use Rattle.pm_run.specs.Order.{last_key};
ghost use Rattle.pm_run_reader.specs.Finding.{FindsRows, Judges};
ghost use Rattle.pm_run_bytes.specs.Block.{ReadsBlock};
ghost use Rattle.pm_run.specs.Reader.{GivesBlock, GivesNext, OpensRun, StopsAfter, before_first};
ghost use Rattle.pm_run_records.specs.RowReader.{reader_in};
ghost use Rattle.pm_run.specs.Rows.{AreBytes, Follow, Opened, opened_as};

use crate::judged::JudgedFile;
use pm_avro_file::FileReader;
use pm_avro_schema::AvroFault;
use pm_base::{Blob, Txt};
use pm_record::{damaged, open_file};
use pm_run::one_list_law;
use pm_run_bytes::Direct;
use pm_run_form::{RowsRead, TableForm};
use pm_run_records::RowReader;
use pm_run_scalars::known_bytes;
use pm_schema::TableSchema;
use pm_values::{Key, Refusal, Stamped};
use std::alloc::{AllocError, Global};
use std::marker::Model;
use std::vec::IntoIter;

/// A data file or a changelog file that is read row by row, or block by block at offsets that were answered. Offsets
/// are in bytes.
pub struct RunReader {
    path: Txt,
    rows: RowReader,
    direct: Option<Direct>,
    file: FileReader,
    left: IntoIter<Stamped, Global>,
    refusal: Option<Refusal>,
    last: Option<Key>,
    next: usize,
    over: bool,
}

impl Drop for RunReader {
    fn drop(self) {
        let RunReader {
            path,
            rows,
            direct,
            file,
            left,
            refusal,
            last,
            next,
            over,
        } = self;
    }
}

impl Model for RunReader {
    ghost use Rattle.std.specs.Prelude.{◌≡◌, ◌≤◌, Some, length};
    ghost use Rattle.std.specs.Vec.Iter.{into_iter_items};
    ghost use Rattle.std.specs.Coded.{codes};
    ghost use Rattle.pm_avro_schema.specs.Coded.{avro_code};
    ghost use Rattle.pm_run_bytes.specs.Direct.{IsDirectOr};
    ghost use Rattle.pm_run.specs.Reader.{RunView};
    ghost use Rattle.pm_run.specs.Rows.{opened_as};
    ghost use Rattle.pm_run_records.specs.RowReader.{reader_in};

    ghost Value = { RunView };

    ghost coded = { Prim.hlevel (codes, avro_code) };

    ghost view = { λ r. record {
      opened = opened_as r.path r.rows.form r.rows.changes r.file;
      left = into_iter_items r.left;
      refusal = r.refusal;
      last = r.last;
      next = r.next;
      over = r.over;
    } };

    ghost invariant = { λ r. (r.next ≤ length r.file.bytes)
        × (Some r.rows ≡ reader_in r.rows.form r.rows.changes r.file.kind)
        × IsDirectOr r.direct r.rows.form r.file };
}

/// The first rows that follow in a file.
#[derive(Drop)]
struct Found {
    first: Stamped,
    later: IntoIter<Stamped, Global>,
    refusal: Option<Refusal>,
    last: Option<Key>,
    next: usize,
}

impl RunReader {
    /// A reader before the first row of the file at a path, which is that of a table of the schema, written with the
    /// schema of an id: a data file, or with `changes` a changelog file. Refusals are `Memory`; `Damaged` at 0 for
    /// another schema's id, with the path of that schema, for what stands before the blocks, and for a field that is
    /// missing; and `Unsupported` for another codec or an Avro type that isn't read.
    pub fn open(
        alloc: Global,
        path: &str,
        schema: &TableSchema,
        schema_id: u64,
        bytes: Blob,
        changes: bool,
    ) -> Result<RunReader, Refusal>
        ensures opens { OpensRun schema.now changes schema_id path.now bytes result }
        // So the rows are such that a file can have.
        ensures bytes { OnOk result (AreBytes bytes) }
    {
        if schema_id != schema.id {
            return Err(other_schema(alloc, schema_id));
        }
        known_bytes(bytes.as_bytes());
        let file = open_file(alloc, path, bytes)?;
        let form = TableForm::of(alloc, schema)?;
        let direct = Direct::of(alloc, &form, &file)?;
        match RowReader::of(alloc, file.kind(), form, changes)? {
            Some(rows) => Ok(RunReader::before_first(alloc, path, rows, direct, file)?),
            None => Err(damaged(alloc, path, 0)),
        }
    }

    /// The reader before the first row.
    fn before_first(
        alloc: Global,
        path: &str,
        rows: RowReader,
        direct: Option<Direct>,
        file: FileReader,
    ) -> Result<RunReader, AllocError>
        requires of_kind { Some rows ≡ reader_in rows.form rows.changes file.kind }
        requires direct { IsDirectOr direct rows.form file }
        ensures { IfOk result (λ r. r ≡ before_first (opened_as path.now rows.form rows.changes file)) }
    {
        let next = file.first();
        let none: Vec<Stamped> = Vec::new(alloc);
        Ok(RunReader {
            path: Txt::from_str(alloc, path)?,
            rows,
            direct,
            file,
            left: none.into_iter(),
            refusal: None,
            last: None,
            next,
            over: false,
        })
    }

    /// The next row, or none at the end. Refusals are `Memory`, `Damaged` at the offset of the first block that isn't
    /// one or has a misfit, and `Unsupported` for a kind that the table's engine doesn't store. With a refusal the
    /// reader is over.
    pub fn next(&mut self, alloc: Global) -> Result<Option<Stamped>, Refusal>
        requires { self.old.over ≡ false }
        ensures same { self.new.opened ≡ self.old.opened }
        ensures next { GivesNext self.old self.new result }
    {
        match self.left.next() {
            Some(row) => Ok(Some(row)),
            None => self.next_in_file(alloc),
        }
    }

    /// The next row where none of the block in hand is left.
    fn next_in_file(&mut self, alloc: Global) -> Result<Option<Stamped>, Refusal>
        requires over { self.old.over ≡ false }
        requires none { self.old.left ≡ [] }
        ensures same { self.new.opened ≡ self.old.opened }
        ensures next { GivesNext self.old self.new result }
    {
        if let Some(refusal) = self.refusal.take() {
            self.over = true;
            return Err(refusal);
        }
        match find_rows(
            alloc,
            self.path.as_str(),
            &self.rows,
            &self.direct,
            &self.file,
            self.next,
            &self.last,
        ) {
            Ok(Some(found)) => {
                self.left = found.later;
                self.refusal = found.refusal;
                self.last = found.last;
                self.next = found.next;
                Ok(Some(found.first))
            }
            Ok(None) => Ok(None),
            Err(refusal) => {
                self.over = true;
                Err(refusal)
            }
        }
    }

    /// All rows of the file, of which the first has to follow one with the key before, and the key of the last of them,
    /// or that one. Refusals are those of `next`.
    pub fn rows_after(
        &self,
        alloc: Global,
        before: &Option<Key>,
    ) -> Result<(Vec<Stamped>, Option<Key>), Refusal>
        ensures follow { IfOk result
            (λ read. Follow self.now.opened self.now.opened.file.first before.now read.0.items None) }
        ensures last { IfOk result (λ read. read.1 ≡ last_key before.now read.0.items) }
        ensures refuses { IfErr result (StopsAfter self.now.opened before.now) }
    {
        rows_after(
            alloc,
            self.path.as_str(),
            &self.rows,
            &self.direct,
            &self.file,
            before,
        )
    }

    /// The file with its rows and the key of the last of them, or the key before: all were judged where they lie in its
    /// bytes, and the first may follow one with the key before. The reader again where that isn't known: for a file
    /// that isn't as it is written here or has a refusal or a block without rows, and where memory runs out.
    pub fn judged(
        self,
        alloc: Global,
        before: &Option<Key>,
    ) -> Result<(JudgedFile, Option<Key>), RunReader>
        ensures follow { IfOk result
            (λ found. Follow self.opened self.opened.file.first before.now found.0 None) }
        ensures last { IfOk result (λ found. found.1 ≡ last_key before.now found.0) }
        ensures again { IfErr result (λ reader. reader ≡ self) }
    {
        one_list_law();
        let mut reader = self;
        let Some(last) = judge_file(alloc, &reader.rows, &reader.direct, &reader.file, before)
        else {
            return Err(reader);
        };
        match reader.direct.take() {
            Some(direct) => Ok((JudgedFile::new(reader, direct), last)),
            None => Err(reader),
        }
    }

    /// All bytes of the file.
    pub(crate) fn bytes(&self) -> &[u8]
        ensures { result.now ≡ self.now.opened.file.bytes }
    {
        self.file.bytes()
    }

    /// The form of the table.
    pub(crate) fn form(&self) -> &TableForm
        ensures { result.now ≡ self.now.opened.form }
    {
        &self.rows.form
    }

    /// Whether it is a changelog file.
    pub(crate) fn changes(&self) -> bool
        ensures { result ≡ self.now.opened.changes }
    {
        self.rows.changes
    }

    /// The offset of the first block, or of the end.
    pub fn first(&self) -> usize
        ensures first { result ≡ self.now.opened.file.first }
        ensures within { result ≤ length self.now.opened.file.bytes }
    {
        self.file.first()
    }

    /// The rows of the block at an offset and the offset after it, or none at the end. The order of keys is judged
    /// within the block alone. Blocks begin at `first` and at the offsets that are answered here. Refusals are those
    /// of `next`.
    pub fn block_at(
        &self,
        alloc: Global,
        offset: usize,
    ) -> Result<Option<(Vec<Stamped>, usize)>, Refusal>
        requires { offset ≤ length self.now.opened.file.bytes }
        ensures { GivesBlock (λ v. v.items) self.now.opened offset result }
    {
        let path = self.path.as_str();
        match read_block(
            alloc,
            path,
            &self.rows,
            &self.direct,
            &self.file,
            offset,
            &None,
        )? {
            Some((read, next)) => {
                let RowsRead { rows, refusal } = read;
                match refusal {
                    Some(refusal) => Err(refusal),
                    None => Ok(Some((rows, next))),
                }
            }
            None => Ok(None),
        }
    }
}

/// The refusal of a file of another schema; or out of memory.
fn other_schema(alloc: Global, id: u64) -> Refusal
    ensures { IsMemoryOr (Damaged (schema_path id) 0) result }
{
    match schema_path(alloc, id) {
        Ok(path) => Refusal::Damaged { path, place: 0 },
        Err(_) => Refusal::Memory,
    }
}

/// The path of the schema with an id.
fn schema_path(alloc: Global, id: u64) -> Result<Txt, AllocError>
    ensures { IfOk result (λ path. path ≡ schema_path id) }
{
    let text = format!(in alloc; "schema/schema-{id}")?;
    Txt::from_str(alloc, text.as_str())
}

/// The first rows from the block at an offset on, after one with the key before; none where there is no row more. A
/// refusal before any row is answered.
fn find_rows(
    alloc: Global,
    path: &str,
    reader: &RowReader,
    direct: &Option<Direct>,
    file: &FileReader,
    offset: usize,
    before: &Option<Key>,
) -> Result<Option<Found>, Refusal>
    requires within { offset ≤ length file.now.bytes }
    requires of_kind { Some reader.now ≡ reader_in reader.now.form reader.now.changes file.now.kind }
    requires direct { IsDirectOr direct.now reader.now.form file.now }
    ensures { FindsRows (opened_as path.now reader.now.form reader.now.changes file.now) offset before.now result }
{
    let mut offset = offset;
    while let Some((read, next)) = read_block(alloc, path, reader, direct, file, offset, before)? {
        let RowsRead { rows, refusal } = read;
        let last = last_of(alloc, None, &rows)?;
        let mut later = rows.into_iter();
        if let Some(first) = later.next() {
            return Ok(Some(Found {
                first,
                later,
                refusal,
                last,
                next,
            }));
        }
        if let Some(refusal) = refusal {
            return Err(refusal);
        }
        offset = next;
    }
    Ok(None)
}

/// The rows of a file, after one with the key before, and the key of the last of them, or that one.
fn rows_after(
    alloc: Global,
    path: &str,
    reader: &RowReader,
    direct: &Option<Direct>,
    file: &FileReader,
    before: &Option<Key>,
) -> Result<(Vec<Stamped>, Option<Key>), Refusal>
    requires of_kind { Some reader.now ≡ reader_in reader.now.form reader.now.changes file.now.kind }
    requires direct { IsDirectOr direct.now reader.now.form file.now }
    ensures follow { IfOk result (λ read.
        Follow (opened_as path.now reader.now.form reader.now.changes file.now) file.now.first before.now read.0.items
        None) }
    ensures last { IfOk result (λ read. read.1 ≡ last_key before.now read.0.items) }
    ensures refuses { IfErr result
        (StopsAfter (opened_as path.now reader.now.form reader.now.changes file.now) before.now) }
{
    let mut rows = Vec::new(alloc);
    let mut last = copied_key(alloc, before)?;
    let mut offset = file.first();
    while let Some((read, after)) = read_block(alloc, path, reader, direct, file, offset, &last)? {
        let RowsRead { rows: own, refusal } = read;
        if let Some(refusal) = refusal {
            return Err(refusal);
        }
        last = last_of(alloc, last, &own)?;
        let mut own = own;
        rows.append(&mut own)?;
        offset = after;
    }
    Ok((rows, last))
}

/// Judges the rows of a file that is as it is written here, after one with the key before, where they lie: the key of
/// the last of them, or of that one.
fn judge_file(
    alloc: Global,
    rows: &RowReader,
    direct: &Option<Direct>,
    file: &FileReader,
    before: &Option<Key>,
) -> Option<Option<Key>>
    requires { IsDirectOr direct.now rows.now.form file.now }
    ensures { IfSome result (λ last. (path : List ℕ)
        → Judges (opened_as path rows.now.form rows.now.changes file.now) before.now last) }
{
    let Some(direct) = direct else {
        return None;
    };
    let mut last = copied_key(alloc, before).ok()?;
    let mut offset = file.first();
    let bytes = file.bytes();
    while offset != bytes.len() {
        let (key, end) = direct.judge_block(alloc, &rows.form, rows.changes, bytes, offset, &last)?;
        last = key;
        offset = end;
    }
    Some(last)
}

/// A copy of a key, if there is one.
fn copied_key(alloc: Global, key: &Option<Key>) -> Result<Option<Key>, AllocError>
    ensures { IfOk result (λ copy. copy ≡ key.now) }
{
    match key {
        Some(key) => Ok(Some(key.copy(alloc)?)),
        None => Ok(None),
    }
}

/// The key of the last row, or the one before.
fn last_of(alloc: Global, before: Option<Key>, rows: &[Stamped]) -> Result<Option<Key>, AllocError>
    ensures { IfOk result (λ last. last ≡ last_key before rows.now) }
{
    match rows.last() {
        Some(row) => Ok(Some(row.key.copy(alloc)?)),
        None => Ok(before),
    }
}

/// The rows of the block at an offset, after one with the key before, and the offset after it; none at the end.
fn read_block(
    alloc: Global,
    path: &str,
    rows: &RowReader,
    direct: &Option<Direct>,
    file: &FileReader,
    offset: usize,
    before: &Option<Key>,
) -> Result<Option<(RowsRead, usize)>, Refusal>
    requires within { offset ≤ length file.now.bytes }
    requires of_kind { Some rows.now ≡ reader_in rows.now.form rows.now.changes file.now.kind }
    requires direct { IsDirectOr direct.now rows.now.form file.now }
    ensures { ReadsBlock (opened_as path.now rows.now.form rows.now.changes file.now) offset before.now result }
{
    if let Some(found) = read_direct(alloc, rows, direct, file.bytes(), offset, before) {
        return Ok(Some(found));
    }
    match file.block_at(alloc, offset) {
        Ok(Some((data, next))) => {
            let read = rows.read_rows(alloc, path, file.kind(), offset, before, data)?;
            Ok(Some((read, next)))
        }
        Ok(None) => Ok(None),
        Err(AvroFault::Bad(_)) => Err(damaged(alloc, path, offset)),
        Err(_) => Err(Refusal::Memory),
    }
}

/// The same where the rows can be read straight from the bytes.
fn read_direct(
    alloc: Global,
    rows: &RowReader,
    direct: &Option<Direct>,
    bytes: &[u8],
    offset: usize,
    before: &Option<Key>,
) -> Option<(RowsRead, usize)>
    ensures { IfSome result (λ read. (o : Opened) → o.form ≡ rows.now.form → o.changes ≡ rows.now.changes
        → o.file.bytes ≡ bytes.now → IsDirectOr direct.now rows.now.form o.file
        → ReadsBlock o offset before.now (Ok (Some read))) }
{
    match direct {
        Some(direct) => direct.read_block(alloc, &rows.form, rows.changes, bytes, offset, before),
        None => None,
    }
}
