//! Manifest lists that are read.

ghost use Rattle.std.specs.Prelude.{◌≡◌, List, ℕ, Ok, map};
ghost use Rattle.pm_base.specs.Outcome.{Gives};
ghost use Rattle.pm_avro_data.specs.Datum.{view};
ghost use Rattle.pm_avro_file.specs.Reader.{Opens};
ghost use Rattle.pm_record.specs.File.{ReadsFile, misfit_of, seen};
ghost use Rattle.pm_manifest.specs.Listed.{has_meta_fields, meta_in};
ghost use Rattle.pm_manifest_reader.specs.Taken.{meta_by};

use crate::field_values::FieldValues;
use pm_avro_data::Datum;
use pm_avro_file::FileReader;
use pm_avro_schema::AvroType;
use pm_base::Blob;
use pm_manifest::ManifestMeta;
use pm_manifest_shape::{MOST_COUNTED, MOST_ID};
use pm_record::{Misfit, ReadRecord, Selection, damaged, open_file, read_records};
use pm_values::Refusal;
use std::alloc::Global;

/// The fields that are read, in the order in which they are judged.
const FIELDS: [&str; 5] = [
    "_FILE_NAME",
    "_FILE_SIZE",
    "_NUM_ADDED_FILES",
    "_NUM_DELETED_FILES",
    "_SCHEMA_ID",
];

/// The manifests that the list at a path has, in order. Refusals are `Memory`, `Unsupported` for another codec or an
/// Avro type that isn't read, and `Damaged`: at 0 for what stands before the blocks and for a field that is missing,
/// else at the offset of the first block that isn't one or has a misfit.
pub fn read_list(alloc: Global, path: &str, bytes: Blob) -> Result<Vec<ManifestMeta>, Refusal>
    ensures { ReadsFile has_meta_fields meta_in path.now bytes (seen (λ v. v.items) result) }
{
    let file = open_file(alloc, path, bytes)?;
    read_metas(alloc, path, &file)
}

/// The manifests that the opened file at a path has.
fn read_metas(alloc: Global, path: &str, file: &FileReader) -> Result<Vec<ManifestMeta>, Refusal>
    ensures { (bytes : List ℕ) → Opens bytes (Ok file.now)
        → ReadsFile has_meta_fields meta_in path.now bytes (seen (λ v. v.items) result) }
{
    match Selection::of(alloc, file.kind(), &FIELDS)? {
        Some(fields) => read_records(alloc, path, file, &MetaReader { fields }),
        None => Err(damaged(alloc, path, 0)),
    }
}

/// What reads a list's records.
struct MetaReader {
    fields: Selection,
}

impl Drop for MetaReader {
    fn drop(self) {
        let MetaReader { fields } = self;
    }
}

impl ReadRecord for MetaReader {
    ghost use Rattle.std.specs.Prelude.{◌≡◌, Some};
    ghost use Rattle.pm_record.specs.Record.{indexes_in};
    ghost use Rattle.pm_manifest.specs.Listed.{meta_fields, meta_in};

    type Record = ManifestMeta;

    ghost is_of = { λ r t. indexes_in meta_fields t ≡ Some r.fields };

    ghost reads = { λ r. meta_in };

    fn read(&self, alloc: Global, kind: &AvroType, datum: Datum) -> Result<ManifestMeta, Misfit> {
        match self.fields.read(alloc, kind, datum)? {
            Some(values) => read_meta(values),
            None => Err(Misfit::Bad),
        }
    }
}

/// The manifest of the values of the fields.
#[tactic(auto, unfolding(crate::specs::Taken::meta_by))]
fn read_meta(values: Vec<Datum>) -> Result<ManifestMeta, Misfit>
    ensures { Gives (λ m. m) misfit_of result (meta_by (map view values.items)) }
{
    let mut values = FieldValues::of(values);
    Ok(ManifestMeta {
        name: values.text()?,
        size: values.count(MOST_COUNTED)?,
        added: values.count(MOST_COUNTED)?,
        deleted: values.count(MOST_COUNTED)?,
        schema_id: values.count(MOST_ID)?,
    })
}
