//! Files of runs and changelogs that are written.

ghost use Rattle.std.specs.Prelude.{◌≡◌, ◌<◌, ◌≤◌, ◌^◌, ◌+◌, List, ℕ, None, true, false};
ghost use Rattle.std.specs.Prelude.{IfErr, IfOk, IsTrue, length};
ghost use Rattle.std.specs.List.{AllByRecursion};
ghost use Rattle.pm_avro_schema.specs.View as types;
ghost use Rattle.pm_record.specs.Record as records;
ghost use Rattle.pm_values.specs.Names.{counted, name_of};
ghost use Rattle.pm_values.specs.declared.refusal.Refusal.TheVariants.{Memory};
ghost use Rattle.pm_run.specs.Form.{form_of, written_fields};
ghost use Rattle.pm_run.specs.Kinds.{run_type};
ghost use Rattle.pm_run.specs.Order.{are_in_order};
ghost use Rattle.pm_run.specs.Row.{IsOfFile};
ghost use Rattle.pm_run.specs.Rows.{HasRows};
ghost use Rattle.pm_run.specs.Writing.{AreFilesOf, AreRising, CountFrom, HasOwnKey, IsFileWith, IsMetaOf, IsRun};
ghost use Rattle.pm_run.specs.Writing.{bytes_of, changes_prefix, data_prefix, first_sequence, greatest_of};
ghost use Rattle.pm_run.specs.Writing.{least_of, suffix};

use crate::begun_file::write_rows;
use pm_avro_file::whole_file_law;
use pm_avro_schema::AvroType;
use pm_base::{Blob, Txt};
use pm_record::all_differ;
use pm_run::RunFile;
use pm_run_form::{TableForm, run_kind};
use pm_schema::TableSchema;
use pm_values::{FileMeta, Names, Refusal, Stamped};
use std::alloc::{AllocError, Global};

/// The files of a run of rows by rising key, each of at most so many rows and all but the last of exactly so many, of a
/// table of the schema, at a level. No rows give no file. The only refusal is out of memory, which is also answered
/// where a row has another number of values than the schema has columns, a value isn't of its column's type, or a
/// sequence number is above 2^62 - 1.
pub fn write_run(
    alloc: Global,
    schema: &TableSchema,
    rows: &[Stamped],
    limit: usize,
    level: u32,
    names: &mut Names,
) -> Result<Vec<RunFile>, Refusal>
    requires rising { AreRising rows.now }
    requires limit { 1 ≤ limit }
    requires count { names.old.count < 2 ^ 62 }
    ensures files { IfOk result (λ v. AreFilesOf schema.now limit level names.old rows.now v.items) }
    // What is written of rows that data files can have is a run of these rows.
    ensures again { IfOk result (λ v. AllByRecursion (IsOfFile schema.now false) rows.now
        → IsRun schema.now (bytes_of v.items) rows.now) }
    ensures names { names.new ≡ record names.old { count = names.new.count } }
    ensures taken { IfOk result (λ v. names.new.count ≡ names.old.count + length v.items) }
    ensures counted { (names.old.count ≤ names.new.count) × (names.new.count ≤ names.old.count + length rows.now) }
    ensures memory { IfErr result (λ e. e ≡ Memory) }
{
    let writer = FileWriter::of(alloc, schema)?;
    let files = writer.write_files(alloc, rows, limit, level, names)?;
    whole_file_law();
    Ok(files)
}

/// The one data file of rows by rising key, of a table of the schema, at a level. The only refusal is out of memory, as
/// for `write_run`.
pub fn write_data(
    alloc: Global,
    schema: &TableSchema,
    rows: &[Stamped],
    level: u32,
    names: &mut Names,
) -> Result<RunFile, Refusal>
    requires some { 1 ≤ length rows.now }
    requires rising { AreRising rows.now }
    requires count { names.old.count < 2 ^ 62 }
    ensures file { IfOk result (λ f.
        IsFileWith schema.now level names.old.session (name_of data_prefix suffix names.old) rows.now f) }
    // What is written of rows that data files can have has these rows.
    ensures again { IfOk result (λ f. AllByRecursion (IsOfFile schema.now false) rows.now
        → HasRows schema.now false f.bytes rows.now) }
    ensures names { names.new ≡ record names.old { count = names.new.count } }
    ensures taken { IfOk result (λ f. names.new.count ≡ names.old.count + 1) }
    ensures counted { (names.old.count ≤ names.new.count) × (names.new.count ≤ names.old.count + 1) }
    ensures memory { IfErr result (λ e. e ≡ Memory) }
{
    let writer = FileWriter::of(alloc, schema)?;
    let name = names.take(alloc, "data-", ".avro")?;
    let file = writer.write_file(alloc, rows, level, name, names.session())?;
    whole_file_law();
    Ok(file)
}

/// The file of a changelog of rows whose keys don't fall and whose sequence numbers count from 0, of a table of the
/// schema. The only refusal is out of memory, as for `write_run`.
pub fn write_changes(
    alloc: Global,
    schema: &TableSchema,
    rows: &[Stamped],
    names: &mut Names,
) -> Result<RunFile, Refusal>
    requires some { 1 ≤ length rows.now }
    requires order { IsTrue (are_in_order true None rows.now) }
    requires numbers { CountFrom 0 rows.now }
    requires count { names.old.count < 2 ^ 62 }
    ensures file { IfOk result (λ f.
        IsFileWith schema.now 0 names.old.session (name_of changes_prefix suffix names.old) rows.now f) }
    // What is written of rows that fit, with their keys, has these rows.
    ensures again { IfOk result (λ f. AllByRecursion (HasOwnKey schema.now) rows.now
        → HasRows schema.now true f.bytes rows.now) }
    ensures names { names.new ≡ record names.old { count = names.new.count } }
    ensures taken { IfOk result (λ f. names.new.count ≡ names.old.count + 1) }
    ensures counted { (names.old.count ≤ names.new.count) × (names.new.count ≤ names.old.count + 1) }
    ensures memory { IfErr result (λ e. e ≡ Memory) }
{
    let writer = FileWriter::of(alloc, schema)?;
    let name = names.take(alloc, "changelog-", ".avro")?;
    let file = writer.write_file(alloc, rows, 0, name, names.session())?;
    whole_file_law();
    Ok(file)
}

/// What writes files of a table.
pub(crate) struct FileWriter {
    pub(crate) form: TableForm,
    pub(crate) kind: AvroType,
    pub(crate) schema_id: u64,
}

impl Drop for FileWriter {
    fn drop(self) {
        let FileWriter {
            form,
            kind,
            schema_id,
        } = self;
    }
}

impl FileWriter {
    /// What writes files of a table of the schema. Where names of fields don't differ, which no schema's rules allow,
    /// the answer is out of memory.
    pub(crate) fn of(alloc: Global, schema: &TableSchema) -> Result<FileWriter, AllocError>
        ensures form { IfOk result (λ w. w.form ≡ form_of schema.now) }
        ensures kind { IfOk result (λ w. types.view w.kind ≡ run_type w.form) }
        ensures differ { IfOk result (λ w. records.all_differ (written_fields w.form) ≡ true) }
        ensures id { IfOk result (λ w. w.schema_id ≡ schema.now.id) }
    {
        let form = TableForm::of(alloc, schema)?;
        if !all_differ(&form.written_names(alloc)?) {
            return Err(AllocError);
        }
        let kind = run_kind(alloc, &form)?;
        Ok(FileWriter {
            form,
            kind,
            schema_id: schema.id,
        })
    }

    /// The files of rows, of at most so many rows each.
    fn write_files(
        &self,
        alloc: Global,
        rows: &[Stamped],
        limit: usize,
        level: u32,
        names: &mut Names,
    ) -> Result<Vec<RunFile>, AllocError>
        requires kind { types.view self.now.kind ≡ run_type self.now.form }
        requires differ { records.all_differ (written_fields self.now.form) ≡ true }
        requires limit { 1 ≤ limit }
        requires count { names.old.count < 2 ^ 62 }
        ensures files { IfOk result (λ v. (s : TableSchema) → self.now.form ≡ form_of s → self.now.schema_id ≡ s.id
            → AreFilesOf s limit level names.old rows.now v.items) }
        ensures names { names.new ≡ record names.old { count = names.new.count } }
        ensures taken { IfOk result (λ v. names.new.count ≡ names.old.count + length v.items) }
        ensures counted { (names.old.count ≤ names.new.count) × (names.new.count ≤ names.old.count + length rows.now) }
    {
        let mut files = Vec::new(alloc);
        let mut left = rows;
        while !left.is_empty() {
            let (part, later) = left.split_at(limit.min(left.len()));
            let name = names.take(alloc, "data-", ".avro")?;
            files.push(self.write_file(alloc, part, level, name, names.session())?)?;
            left = later;
        }
        Ok(files)
    }

    /// The file of some rows.
    fn write_file(
        &self,
        alloc: Global,
        rows: &[Stamped],
        level: u32,
        name: Txt,
        marker: [u8; 16],
    ) -> Result<RunFile, AllocError>
        requires kind { types.view self.now.kind ≡ run_type self.now.form }
        requires differ { records.all_differ (written_fields self.now.form) ≡ true }
        requires some { 1 ≤ length rows.now }
        ensures { IfOk result (λ f. (s : TableSchema) → self.now.form ≡ form_of s → self.now.schema_id ≡ s.id
            → IsFileWith s level marker name rows.now f) }
    {
        let bytes = write_rows(alloc, &self.kind, &self.form, rows, marker)?;
        let meta = self.meta_of(alloc, rows, level, name, bytes.len() as u64)?;
        Ok(RunFile {
            meta,
            bytes: Blob::new(bytes),
        })
    }

    /// What is known of the file of some rows, which has so many bytes.
    fn meta_of(
        &self,
        alloc: Global,
        rows: &[Stamped],
        level: u32,
        name: Txt,
        size: u64,
    ) -> Result<FileMeta, AllocError>
        requires some { 1 ≤ length rows.now }
        ensures { IfOk result (λ m. (s : TableSchema) (bytes : List ℕ) → self.now.schema_id ≡ s.id
            → size ≡ length bytes → IsMetaOf s level name rows.now bytes m) }
    {
        let first = &rows[0];
        let last = &rows[rows.len() - 1];
        Ok(FileMeta {
            name,
            size,
            rows: rows.len() as u64,
            min_key: first.key.copy(alloc)?,
            max_key: last.key.copy(alloc)?,
            min_seq: least_of(first.seq, rows),
            max_seq: greatest_of(first.seq, rows),
            schema_id: self.schema_id,
            level,
            created: None,
        })
    }
}

/// The least of a number and the rows' sequence numbers.
fn least_of(first: u64, rows: &[Stamped]) -> u64
    ensures { result ≡ least_of first rows.now }
{
    let mut least = first;
    for row in rows {
        if row.seq < least {
            least = row.seq;
        }
    }
    least
}

/// The greatest of a number and the rows' sequence numbers.
fn greatest_of(first: u64, rows: &[Stamped]) -> u64
    ensures { result ≡ greatest_of first rows.now }
{
    let mut greatest = first;
    for row in rows {
        if row.seq > greatest {
            greatest = row.seq;
        }
    }
    greatest
}
