//! Manifests that are written.

ghost use Rattle.std.specs.Prelude.{◌≡◌, ◌++◌, ◌∷◌, [], List, ℕ, Ok, map, IfOk, IfErr, OnOk};
ghost use Rattle.std.specs.List.{AllByRecursion};
ghost use Rattle.pm_values.specs.declared.refusal.Refusal.TheVariants.{Memory};
ghost use Rattle.pm_avro_data.specs.Datum.{view};
ghost use Rattle.pm_record.specs.File.{IsFileOf, ReadsFile};
ghost use Rattle.pm_binrow.specs.Row.{IsShort};
ghost use Rattle.pm_manifest.specs.Entries.{IsEntry, IsFileWithin, IsWithin, entry_data, entry_in, file_data};
ghost use Rattle.pm_manifest.specs.Entries.{has_entry_fields, key_data, kind_data, time_data};
ghost use Rattle.pm_manifest_writer.specs.Writing.{content_data, numbers_data, statistics_data};
ghost use Rattle.pm_manifest_writer.specs.Writing.{HasContentWithin, HasNumbersWithin};
ghost use Rattle.pm_manifest.specs.Shape.{rest_of, shape_of};
ghost use Rattle.pm_manifest.specs.«Type».{entry_type};

use crate::kind::entry_kind;
use crate::pushing::push_datum;
use crate::statistics::{MOST_IN_BLOCK, unknown_statistics};
use pm_avro_data::{Datum, Leaf};
use pm_binrow::to_binary;
use pm_manifest::Entry;
use pm_manifest_shape::{
    MOST_COUNTED, MOST_ID, MOST_SEQUENCE, TableShape, write_count, write_natural,
};
use pm_record::{write_records, written_law};
use pm_schema::TableSchema;
use pm_values::{FileMeta, Key, Refusal};
use std::alloc::{AllocError, Global};

/// The bytes of a manifest of these entries of a table, at most 1024 in a block. The only refusal is out of memory,
/// which is also answered where a number is above what is read, a size or a number of rows above 2^48, say, or where
/// the row of a partition or of a key would take 2^31 bytes or more.
pub fn write_manifest(
    alloc: Global,
    schema: &TableSchema,
    entries: &[Entry],
    marker: [u8; 16],
) -> Result<Vec<u8>, Refusal>
    ensures file { IfOk result (λ v.
        IsFileOf entry_type 1024 (map (entry_data (shape_of schema.now)) entries.now) marker v.items) }
    ensures within { IfOk result (λ v. AllByRecursion (IsWithin (shape_of schema.now)) entries.now) }
    // What is written of entries that a manifest can have is read as the same.
    ensures again { IfOk result (λ v. AllByRecursion (IsEntry (shape_of schema.now)) entries.now → (path : List ℕ)
        → ReadsFile has_entry_fields (entry_in (shape_of schema.now)) path v.items (Ok entries.now)) }
    ensures memory { IfErr result (λ e. e ≡ Memory) }
{
    let shape = TableShape::of(alloc, schema)?;
    let records = entry_records(alloc, &shape, entries)?;
    written_law::<Entry>();
    match write_records(alloc, &entry_kind(alloc)?, MOST_IN_BLOCK, records, marker) {
        Ok(bytes) => Ok(bytes),
        Err(_) => Err(Refusal::Memory),
    }
}

/// The data of entries.
fn entry_records(
    alloc: Global,
    shape: &TableShape,
    entries: &[Entry],
) -> Result<Vec<Datum>, AllocError>
    ensures records { IfOk result (λ v. map view v.items ≡ map (entry_data shape.now) entries.now) }
    ensures within { IfOk result (λ v. AllByRecursion (IsWithin shape.now) entries.now) }
{
    let mut records = Vec::with_capacity(alloc, entries.len())?;
    for entry in entries {
        records.push(entry_datum(alloc, shape, entry)?)?;
    }
    Ok(records)
}

/// The datum of an entry.
fn entry_datum(alloc: Global, shape: &TableShape, entry: &Entry) -> Result<Datum, AllocError>
    ensures datum { IfOk result (λ d. view d ≡ entry_data shape.now entry.now) }
    ensures within { IfOk result (λ d. IsWithin shape.now entry.now) }
{
    let mut values = Vec::with_capacity(alloc, 6)?;
    values.push(Datum::Int(2))?;
    values.push(kind_datum(entry.add))?;
    let partition = to_binary(alloc, &shape.partition, &entry.group.partition)?;
    values.push(Datum::Bytes(partition))?;
    values.push(write_natural(entry.group.bucket)?)?;
    values.push(write_natural(entry.buckets)?)?;
    values.push(file_datum(alloc, shape, &entry.file)?)?;
    Ok(Datum::Record(values))
}

/// The datum of an entry's kind: an ADD is 0, a DELETE 1.
fn kind_datum(add: bool) -> Datum
    ensures { view result ≡ kind_data add }
{
    if add { Datum::Int(0) } else { Datum::Int(1) }
}

/// The datum of a file.
fn file_datum(alloc: Global, shape: &TableShape, file: &FileMeta) -> Result<Datum, AllocError>
    ensures datum { IfOk result (λ d. view d ≡ file_data shape.now file.now) }
    ensures within { IfOk result (λ d. IsFileWithin shape.now file.now) }
{
    let mut values = Vec::with_capacity(alloc, 12)?;
    push_content(alloc, shape, file, &mut values)?;
    push_statistics(alloc, shape, &mut values)?;
    push_numbers(file, &mut values)?;
    Ok(Datum::Record(values))
}

/// Adds the data of a file's name, its size, its rows, and its least and greatest keys.
fn push_content(
    alloc: Global,
    shape: &TableShape,
    file: &FileMeta,
    values: &mut Vec<Datum>,
) -> Result<(), AllocError>
    ensures data { OnOk result (map view values.new.items
        ≡ map view values.old.items ++ content_data shape.now file.now) }
    ensures within { OnOk result (HasContentWithin shape.now file.now) }
{
    push_datum(values, Datum::Text(file.name.copy(alloc)?))?;
    push_datum(values, write_count(file.size, MOST_COUNTED)?)?;
    push_datum(values, write_count(file.rows, MOST_COUNTED)?)?;
    push_datum(values, key_datum(alloc, shape, &file.min_key)?)?;
    push_datum(values, key_datum(alloc, shape, &file.max_key)?)
}

/// Adds the data of its statistics, of which nothing is known.
fn push_statistics(
    alloc: Global,
    shape: &TableShape,
    values: &mut Vec<Datum>,
) -> Result<(), AllocError>
    ensures { OnOk result (map view values.new.items ≡ map view values.old.items ++ statistics_data shape.now) }
{
    push_datum(values, unknown_statistics(alloc, &shape.rest)?)?;
    push_datum(values, unknown_statistics(alloc, &shape.columns)?)
}

/// Adds the data of its sequence numbers, its schema, its level, and the moment of its creation.
fn push_numbers(file: &FileMeta, values: &mut Vec<Datum>) -> Result<(), AllocError>
    ensures data { OnOk result (map view values.new.items ≡ map view values.old.items ++ numbers_data file.now) }
    ensures within { OnOk result (HasNumbersWithin file.now) }
{
    push_datum(values, write_count(file.min_seq, MOST_SEQUENCE)?)?;
    push_datum(values, write_count(file.max_seq, MOST_SEQUENCE)?)?;
    push_datum(values, write_count(file.schema_id, MOST_ID)?)?;
    push_datum(values, write_natural(file.level)?)?;
    push_datum(values, time_datum(file.created))
}

/// The datum of a key: its values that aren't the partition's.
fn key_datum(alloc: Global, shape: &TableShape, key: &Key) -> Result<Datum, AllocError>
    ensures datum { IfOk result (λ d. view d ≡ key_data shape.now key.now) }
    ensures short { IfOk result (λ d. IsShort shape.now.rest (rest_of shape.now.places key.now)) }
{
    let rest = shape.rest(alloc, key)?;
    Ok(Datum::Bytes(to_binary(alloc, &shape.rest, &rest)?))
}

/// The datum of a moment, or of null.
fn time_datum(time: Option<i64>) -> Datum
    ensures { view result ≡ time_data time }
{
    match time {
        Some(millis) => Datum::Branch(1, Leaf::Long(millis)),
        None => Datum::Branch(0, Leaf::Null),
    }
}
