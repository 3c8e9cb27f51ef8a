//! Manifests that are read.

ghost use Rattle.std.specs.Prelude.{◌≡◌, List, ℕ, Some, Ok, map, codes, nat_eq, IfOk};
ghost use Rattle.std.specs.List.{ends_with, list_any};
ghost use Rattle.pm_base.specs.Outcome.{Gives};
ghost use Rattle.pm_avro_schema.specs.View as types;
ghost use Rattle.pm_avro_data.specs.Datum.{view};
ghost use Rattle.pm_avro_data.specs.HasType.{HasType};
ghost use Rattle.pm_avro_file.specs.Reader.{Opens};
ghost use Rattle.pm_binrow.specs.Row.{is_null};
ghost use Rattle.pm_record.specs.Record as records;
ghost use Rattle.pm_record.specs.File.{ReadsFile, misfit_of, seen};
ghost use Rattle.pm_record.specs.Record.{indexes_in, HaveFieldTypes};
ghost use Rattle.pm_manifest.specs.Entries.{name_of, suffix, total_of};
ghost use Rattle.pm_manifest.specs.Entries.{entry_fields, entry_in, field_type, file_fields, has_entry_fields};
ghost use Rattle.pm_manifest.specs.Entries.{are_moments, is_moment, is_moment_or_null, is_time};
ghost use Rattle.pm_manifest.specs.Listed.{found};
ghost use Rattle.pm_manifest_reader.specs.Reader.{reader_in};
ghost use Rattle.pm_manifest.specs.Rows.{full_row, unless_null};
ghost use Rattle.pm_manifest.specs.Shape.{shape_of};
ghost use Rattle.pm_manifest_reader.specs.Taken.{add_found, bucket_found, entry_by, file_by, file_found, key_found};
ghost use Rattle.pm_manifest_reader.specs.Taken.{name_found, row_found, time_found, total_found};

use crate::field_values::FieldValues;
use pm_avro_data::Datum;
use pm_avro_file::{FileReader, KnownType};
use pm_avro_schema::AvroType;
use pm_base::{Blob, Txt};
use pm_binrow::{BinFault, from_binary};
use pm_manifest::Entry;
use pm_manifest_shape::{MOST_COUNTED, MOST_ID, MOST_SEQUENCE, TableShape, read_natural};
use pm_record::{
    Misfit, ReadRecord, Selection, damaged, field_kind, open_file_by, present, read_int, read_long,
    read_records, take_bytes, take_text,
};
use pm_schema::TableSchema;
use pm_values::{ColType, FileMeta, Group, Key, Refusal, Row, Value};
use std::alloc::{AllocError, Global};

/// The fields of an entry that are read, in the order in which they are judged.
const ENTRY_FIELDS: [&str; 5] = ["_KIND", "_PARTITION", "_TOTAL_BUCKETS", "_BUCKET", "_FILE"];

/// The fields of its file that are read, in the order in which they are judged.
const FILE_FIELDS: [&str; 10] = [
    "_FILE_NAME",
    "_SCHEMA_ID",
    "_FILE_SIZE",
    "_ROW_COUNT",
    "_MIN_KEY",
    "_MAX_KEY",
    "_MIN_SEQUENCE_NUMBER",
    "_MAX_SEQUENCE_NUMBER",
    "_LEVEL",
    "_CREATION_TIME",
];

/// The entries that the manifest at a path of a table has, in order. Refusals are `Memory`; `Unsupported` for another
/// codec, an Avro type that isn't read, a number of buckets that isn't the table's, and a file's name that doesn't end
/// in `.avro`; and `Damaged`: at 0 for what stands before the blocks and for a field that is missing, else at the
/// offset of the first block that isn't one or has a misfit.
pub fn read_manifest(
    alloc: Global,
    path: &str,
    schema: &TableSchema,
    bytes: Blob,
) -> Result<Vec<Entry>, Refusal>
    ensures { ReadsFile has_entry_fields (entry_in (shape_of schema.now)) path.now bytes
        (seen (λ v. v.items) result) }
{
    match read_manifest_by(alloc, path, schema, bytes, None) {
        Ok((entries, known)) => {
            drop(known);
            Ok(entries)
        }
        Err(refusal) => Err(refusal),
    }
}

/// The same, and the type of its records, by which the next manifest is read. A type that is known from another one
/// isn't read again where the text of this one's is the same.
pub fn read_manifest_by(
    alloc: Global,
    path: &str,
    schema: &TableSchema,
    bytes: Blob,
    known: Option<&KnownType>,
) -> Result<(Vec<Entry>, KnownType), Refusal>
    ensures { ReadsFile has_entry_fields (entry_in (shape_of schema.now)) path.now bytes
        (seen (λ x. x.0.items) result) }
{
    let file = open_file_by(alloc, path, bytes, known)?;
    match read_entries(alloc, path, schema, &file) {
        Ok(entries) => Ok((entries, file.into_known())),
        Err(refusal) => {
            drop(file);
            Err(refusal)
        }
    }
}

/// The entries that the opened file at a path of a table has.
fn read_entries(
    alloc: Global,
    path: &str,
    schema: &TableSchema,
    file: &FileReader,
) -> Result<Vec<Entry>, Refusal>
    ensures { (bytes : List ℕ) → Opens bytes (Ok file.now)
        → ReadsFile has_entry_fields (entry_in (shape_of schema.now)) path.now bytes (seen (λ v. v.items) result) }
{
    let shape = TableShape::of(alloc, schema)?;
    match EntryReader::of(alloc, file.kind(), shape)? {
        Some(reader) => read_records(alloc, path, file, &reader),
        None => Err(damaged(alloc, path, 0)),
    }
}

/// What reads a manifest's records.
struct EntryReader {
    shape: TableShape,
    fields: Selection,
    file_fields: Selection,
}

impl Drop for EntryReader {
    fn drop(self) {
        let EntryReader {
            shape,
            fields,
            file_fields,
        } = self;
    }
}

impl EntryReader {
    /// The reader of records of a type, unless a field is missing.
    fn of(
        alloc: Global,
        kind: &AvroType,
        shape: TableShape,
    ) -> Result<Option<EntryReader>, AllocError>
        ensures { IfOk result (λ found. found ≡ reader_in shape (types.view kind.now)) }
    {
        let Some(fields) = Selection::of(alloc, kind, &ENTRY_FIELDS)? else {
            return Ok(None);
        };
        let Some(file_fields) = Selection::of(alloc, field_of(kind, "_FILE"), &FILE_FIELDS)? else {
            return Ok(None);
        };
        Ok(Some(EntryReader {
            shape,
            fields,
            file_fields,
        }))
    }

    /// The entry of the values of the fields.
    #[tactic(auto, unfolding(crate::specs::Taken::entry_by))]
    fn read_entry(
        &self,
        alloc: Global,
        kind: &AvroType,
        values: Vec<Datum>,
    ) -> Result<Entry, Misfit>
        requires of_kind { indexes_in file_fields (field_type (codes "_FILE") (types.view kind.now))
            ≡ Some self.now.file_fields }
        requires of_type { HaveFieldTypes entry_fields (types.view kind.now) (map view values.items) }
        ensures { Gives (λ e. e) misfit_of result
            (entry_by self.now.shape (types.view kind.now) (map view values.items)) }
    {
        let mut values = FieldValues::of(values);
        let add = read_add(values.next())?;
        let partition = read_row(alloc, &self.shape.partition, values.next())?;
        let buckets = read_total(alloc, values.next(), self.shape.buckets)?;
        let bucket = read_bucket(values.next(), self.shape.buckets)?;
        let file = self.read_file(alloc, field_of(kind, "_FILE"), &partition, values.next())?;
        Ok(Entry {
            add,
            group: Group { partition, bucket },
            buckets,
            file,
        })
    }

    /// The file of a group of the partition that a datum of a type is.
    #[tactic(auto, unfolding(crate::specs::Taken::file_found))]
    fn read_file(
        &self,
        alloc: Global,
        kind: &AvroType,
        partition: &Row,
        datum: Datum,
    ) -> Result<FileMeta, Misfit>
        requires of_kind { indexes_in file_fields (types.view kind.now) ≡ Some self.now.file_fields }
        requires of_type { HasType (types.view kind.now) (view datum) }
        ensures { Gives (λ f. f) misfit_of result
            (file_found self.now.shape partition.now (types.view kind.now) (view datum)) }
    {
        match self.file_fields.read(alloc, kind, datum)? {
            Some(values) => self.read_meta(alloc, kind, partition, values),
            None => Err(Misfit::Bad),
        }
    }

    /// The file of the values of its fields.
    #[tactic(auto, unfolding(crate::specs::Taken::file_by))]
    fn read_meta(
        &self,
        alloc: Global,
        kind: &AvroType,
        partition: &Row,
        values: Vec<Datum>,
    ) -> Result<FileMeta, Misfit>
        ensures { Gives (λ f. f) misfit_of result
            (file_by self.now.shape partition.now (types.view kind.now) (map view values.items)) }
    {
        let mut values = FieldValues::of(values);
        Ok(FileMeta {
            name: read_name(alloc, values.next())?,
            schema_id: values.count(MOST_ID)?,
            size: values.count(MOST_COUNTED)?,
            rows: values.count(MOST_COUNTED)?,
            min_key: self.read_key(alloc, partition, values.next())?,
            max_key: self.read_key(alloc, partition, values.next())?,
            min_seq: values.count(MOST_SEQUENCE)?,
            max_seq: values.count(MOST_SEQUENCE)?,
            level: values.natural()?,
            created: read_time(field_of(kind, "_CREATION_TIME"), values.next())?,
        })
    }

    /// A key of a file of the partition.
    #[tactic(auto, unfolding(crate::specs::Taken::key_found, crate::specs::Taken::row_found))]
    fn read_key(&self, alloc: Global, partition: &Row, datum: Datum) -> Result<Key, Misfit>
        ensures { Gives (λ key. key) misfit_of result (key_found self.now.shape partition.now (view datum)) }
    {
        let rest = read_row(alloc, &self.shape.rest, datum)?;
        Ok(self.shape.key(alloc, partition, &rest)?)
    }
}

impl ReadRecord for EntryReader {
    ghost use Rattle.std.specs.Prelude.{◌≡◌, Some, codes};
    ghost use Rattle.pm_record.specs.Record.{indexes_in};
    ghost use Rattle.pm_manifest.specs.Entries.{entry_fields, entry_in, field_type, file_fields};

    type Record = Entry;

    ghost is_of = { λ r t. (indexes_in entry_fields t ≡ Some r.fields)
        × (indexes_in file_fields (field_type (codes "_FILE") t) ≡ Some r.file_fields) };

    ghost reads = { λ r. entry_in r.shape };

    fn read(&self, alloc: Global, kind: &AvroType, datum: Datum) -> Result<Entry, Misfit> {
        match self.fields.read(alloc, kind, datum)? {
            Some(values) => self.read_entry(alloc, kind, values),
            None => Err(Misfit::Bad),
        }
    }
}

/// The type of a record's field of a name, and itself where it has none.
fn field_of<'k>(kind: &'k AvroType, name: &str) -> &'k AvroType
    ensures { types.view result.now ≡ field_type name.now (types.view kind.now) }
{
    match field_kind(kind, name) {
        Some(found) => found,
        None => kind,
    }
}

/// Whether an entry adds its file.
#[tactic(auto, unfolding(crate::specs::Taken::add_found))]
fn read_add(datum: Datum) -> Result<bool, Misfit>
    ensures { result ≡ add_found (view datum) }
{
    match read_natural(&datum) {
        Some(0) => Ok(true),
        Some(1) => Ok(false),
        _ => Err(Misfit::Bad),
    }
}

/// The row without a null of these types that bytes are.
#[tactic(auto, unfolding(crate::specs::Taken::row_found))]
fn read_row(alloc: Global, types: &[ColType], datum: Datum) -> Result<Row, Misfit>
    ensures { Gives (λ row. row) misfit_of result (row_found types.now (view datum)) }
{
    match take_bytes(datum) {
        Some(bytes) => read_full_row(alloc, types, &bytes),
        None => Err(Misfit::Bad),
    }
}

/// The row without a null of these types that bytes are.
fn read_full_row(alloc: Global, types: &[ColType], bytes: &[u8]) -> Result<Row, Misfit>
    ensures { Gives (λ row. row) misfit_of result (found (full_row types.now bytes.now)) }
{
    match from_binary(alloc, types, bytes) {
        Ok(row) => unless_null(row),
        Err(BinFault::Memory) => Err(Misfit::Memory),
        Err(BinFault::Bad) => Err(Misfit::Bad),
    }
}

/// A row, unless it has a null.
fn unless_null(row: Row) -> Result<Row, Misfit>
    ensures { result ≡ found (unless_null row) }
{
    if has_null(row.values()) {
        return Err(Misfit::Bad);
    }
    Ok(row)
}

/// Whether a null is among values.
fn has_null(values: &[Value]) -> bool
    ensures { result ≡ list_any is_null values.now }
{
    for value in values {
        if matches!(value, Value::Null) {
            return true;
        }
    }
    false
}

/// The number of buckets, which has to be the table's.
#[tactic(auto, unfolding(crate::specs::Taken::total_found))]
fn read_total(alloc: Global, datum: Datum, buckets: u32) -> Result<u32, Misfit>
    ensures { Gives (λ n. n) misfit_of result (total_found buckets (view datum)) }
{
    match read_int(&datum) {
        Some(total) => judge_total(alloc, total, buckets),
        None => Err(Misfit::Bad),
    }
}

/// The table's number of buckets, unless another was found.
fn judge_total(alloc: Global, total: i32, buckets: u32) -> Result<u32, Misfit>
    ensures { Gives (λ n. n) misfit_of result (total_of buckets total) }
{
    if i64::from(total) == i64::from(buckets) {
        return Ok(buckets);
    }
    let text = format!(in alloc; "{total}")?;
    Err(Misfit::Unsupported {
        what: Txt::from_str(alloc, "_TOTAL_BUCKETS")?,
        text: Txt::from_str(alloc, text.as_str())?,
    })
}

/// A bucket, which is one of so many.
#[tactic(auto, unfolding(crate::specs::Taken::bucket_found))]
fn read_bucket(datum: Datum, buckets: u32) -> Result<u32, Misfit>
    ensures { result ≡ bucket_found buckets (view datum) }
{
    match read_natural(&datum) {
        Some(bucket) if bucket < buckets => Ok(bucket),
        _ => Err(Misfit::Bad),
    }
}

/// The name of a file, which ends in `.avro`.
#[tactic(auto, unfolding(crate::specs::Taken::name_found))]
fn read_name(alloc: Global, datum: Datum) -> Result<Txt, Misfit>
    ensures { Gives (λ name. name) misfit_of result (name_found (view datum)) }
{
    match take_text(datum) {
        Some(name) => judge_name(alloc, name),
        None => Err(Misfit::Bad),
    }
}

/// The name of a file, unless it doesn't end in `.avro`.
fn judge_name(alloc: Global, name: Txt) -> Result<Txt, Misfit>
    ensures { Gives (λ name. name) misfit_of result (name_of name) }
{
    if is_of_records(name.as_str()) {
        return Ok(name);
    }
    Err(Misfit::Unsupported {
        what: Txt::from_str(alloc, "file")?,
        text: name,
    })
}

/// Whether a file of this name has records: it ends in `.avro`.
fn is_of_records(name: &str) -> bool
    ensures { result ≡ ends_with nat_eq name.now suffix }
{
    name.ends_with(".avro")
}

/// Whether null alone is of a type.
fn is_null_type(kind: &AvroType) -> bool
    ensures { result ≡ records.is_null (types.view kind.now) }
{
    matches!(kind, AvroType::Null)
}

/// Whether a type has numbers alone, or null alone.
fn is_moment(kind: &AvroType) -> bool
    ensures { result ≡ is_moment (types.view kind.now) }
{
    matches!(kind, AvroType::Null | AvroType::Int | AvroType::Long)
}

/// Whether of two types one is null, and the other has numbers alone.
fn is_moment_or_null(first: &AvroType, second: &AvroType) -> bool
    ensures { result ≡ is_moment_or_null (types.view first.now) (types.view second.now) }
{
    (is_null_type(first) && is_moment(second)) || (is_moment(first) && is_null_type(second))
}

/// Whether of exactly two branches one is null, and the other has numbers alone.
fn are_moments(branches: &[AvroType]) -> bool
    ensures { result ≡ are_moments (types.branches_view branches.now) }
{
    let Some((first, later)) = branches.split_first() else {
        return false;
    };
    let Some((second, more)) = later.split_first() else {
        return false;
    };
    if !more.is_empty() {
        return false;
    }
    is_moment_or_null(first, second)
}

/// Whether moments may have a type: a long, null, or their union.
fn is_time(kind: &AvroType) -> bool
    ensures { result ≡ is_time (types.view kind.now) }
{
    match kind {
        AvroType::Union(branches) => are_moments(branches),
        other => is_moment(other),
    }
}

/// A moment, or null.
#[tactic(auto, unfolding(crate::specs::Taken::time_found))]
fn read_time(kind: &AvroType, datum: Datum) -> Result<Option<i64>, Misfit>
    ensures { result ≡ time_found (types.view kind.now) (view datum) }
{
    if !is_time(kind) {
        return Err(Misfit::Bad);
    }
    match present(kind, datum) {
        Some(time) => Ok(Some(read_long(&time).ok_or(Misfit::Bad)?)),
        None => Ok(None),
    }
}
