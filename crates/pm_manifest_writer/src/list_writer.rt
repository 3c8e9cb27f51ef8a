//! Manifest lists that are written.

ghost use Rattle.std.specs.Prelude.{◌≡◌, List, ℕ, Ok, map, IfOk, IfErr};
ghost use Rattle.std.specs.List.{AllByRecursion};
ghost use Rattle.pm_values.specs.declared.refusal.Refusal.TheVariants.{Memory};
ghost use Rattle.pm_avro_data.specs.Datum.{view};
ghost use Rattle.pm_record.specs.File.{IsFileOf, ReadsFile};
ghost use Rattle.pm_manifest.specs.Listed.{IsListed, has_meta_fields, meta_data, meta_in};
ghost use Rattle.pm_manifest.specs.Shape.{shape_of};
ghost use Rattle.pm_manifest.specs.«Type».{meta_type};

use crate::kind::meta_kind;
use crate::statistics::{MOST_IN_BLOCK, unknown_statistics};
use pm_avro_data::Datum;
use pm_manifest::ManifestMeta;
use pm_manifest_shape::{MOST_COUNTED, MOST_ID, TableShape, write_count};
use pm_record::{write_records, written_law};
use pm_schema::TableSchema;
use pm_values::Refusal;
use std::alloc::{AllocError, Global};

/// The bytes of a list of these manifests of a table, at most 1024 in a block. The only refusal is out of memory, which
/// is also answered where a size or a count is above 2^48, or a schema's id above 2^53 - 1.
pub fn write_list(
    alloc: Global,
    schema: &TableSchema,
    metas: &[ManifestMeta],
    marker: [u8; 16],
) -> Result<Vec<u8>, Refusal>
    ensures file { IfOk result (λ v.
        IsFileOf meta_type 1024 (map (meta_data (shape_of schema.now).partition) metas.now) marker v.items) }
    ensures within { IfOk result (λ v. AllByRecursion IsListed metas.now) }
    // What is written is read as the same.
    ensures again { IfOk result (λ v. (path : List ℕ) → ReadsFile has_meta_fields meta_in path v.items (Ok metas.now)) }
    ensures memory { IfErr result (λ e. e ≡ Memory) }
{
    let shape = TableShape::of(alloc, schema)?;
    let records = meta_records(alloc, &shape, metas)?;
    written_law::<ManifestMeta>();
    match write_records(alloc, &meta_kind(alloc)?, MOST_IN_BLOCK, records, marker) {
        Ok(bytes) => Ok(bytes),
        Err(_) => Err(Refusal::Memory),
    }
}

/// The data of manifests.
fn meta_records(
    alloc: Global,
    shape: &TableShape,
    metas: &[ManifestMeta],
) -> Result<Vec<Datum>, AllocError>
    ensures records { IfOk result (λ v. map view v.items ≡ map (meta_data shape.now.partition) metas.now) }
    ensures within { IfOk result (λ v. AllByRecursion IsListed metas.now) }
{
    let mut records = Vec::with_capacity(alloc, metas.len())?;
    for meta in metas {
        records.push(meta_datum(alloc, shape, meta)?)?;
    }
    Ok(records)
}

/// The datum of a manifest.
fn meta_datum(alloc: Global, shape: &TableShape, meta: &ManifestMeta) -> Result<Datum, AllocError>
    ensures datum { IfOk result (λ d. view d ≡ meta_data shape.now.partition meta.now) }
    ensures within { IfOk result (λ d. IsListed meta.now) }
{
    let mut values = Vec::with_capacity(alloc, 7)?;
    values.push(Datum::Int(2))?;
    values.push(Datum::Text(meta.name.copy(alloc)?))?;
    values.push(write_count(meta.size, MOST_COUNTED)?)?;
    values.push(write_count(meta.added, MOST_COUNTED)?)?;
    values.push(write_count(meta.deleted, MOST_COUNTED)?)?;
    values.push(unknown_statistics(alloc, &shape.partition)?)?;
    values.push(write_count(meta.schema_id, MOST_ID)?)?;
    Ok(Datum::Record(values))
}
