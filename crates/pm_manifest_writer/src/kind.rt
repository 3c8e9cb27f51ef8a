//! The Avro types of the records that are written.

ghost use Rattle.std.specs.Prelude.{◌≡◌, ◌++◌, ◌∷◌, [], map, IfOk, OnOk};
ghost use Rattle.pm_avro_schema.specs.View as types;
ghost use Rattle.pm_manifest.specs.«Type».{entry_type, file_type, meta_type, or_null, statistics_type};

use pm_avro_schema::AvroType;
use pm_base::Txt;
use std::alloc::{AllocError, Global};

/// Adds a field to those of a record.
fn push_field(
    alloc: Global,
    fields: &mut Vec<(Txt, AvroType)>,
    name: &str,
    kind: AvroType,
) -> Result<(), AllocError>
    ensures { OnOk result (map types.field_view fields.new.items
        ≡ map types.field_view fields.old.items ++ (name.now, types.view kind) ∷ []) }
{
    fields.push((Txt::from_str(alloc, name)?, kind))?;
    Ok(())
}

/// Null or the type.
fn or_null(alloc: Global, kind: AvroType) -> Result<AvroType, AllocError>
    ensures { IfOk result (λ t. types.view t ≡ or_null (types.view kind)) }
{
    let mut branches = Vec::with_capacity(alloc, 2)?;
    branches.push(AvroType::Null)?;
    branches.push(kind)?;
    Ok(AvroType::Union(branches))
}

/// The type of statistics.
fn statistics_kind(alloc: Global) -> Result<AvroType, AllocError>
    ensures { IfOk result (λ t. types.view t ≡ statistics_type) }
{
    let count = or_null(alloc, AvroType::Long)?;
    let counts = AvroType::Array(Box::new(alloc, count)?);
    let mut fields = Vec::with_capacity(alloc, 3)?;
    push_field(alloc, &mut fields, "_MIN_VALUES", AvroType::Bytes)?;
    push_field(alloc, &mut fields, "_MAX_VALUES", AvroType::Bytes)?;
    push_field(alloc, &mut fields, "_NULL_COUNTS", or_null(alloc, counts)?)?;
    Ok(AvroType::Record(fields))
}

/// The type of a manifest list's records.
pub(crate) fn meta_kind(alloc: Global) -> Result<AvroType, AllocError>
    ensures { IfOk result (λ t. types.view t ≡ meta_type) }
{
    let mut fields = Vec::with_capacity(alloc, 7)?;
    push_field(alloc, &mut fields, "_VERSION", AvroType::Int)?;
    push_field(alloc, &mut fields, "_FILE_NAME", AvroType::Text)?;
    push_field(alloc, &mut fields, "_FILE_SIZE", AvroType::Long)?;
    push_field(alloc, &mut fields, "_NUM_ADDED_FILES", AvroType::Long)?;
    push_field(alloc, &mut fields, "_NUM_DELETED_FILES", AvroType::Long)?;
    push_field(
        alloc,
        &mut fields,
        "_PARTITION_STATS",
        statistics_kind(alloc)?,
    )?;
    push_field(alloc, &mut fields, "_SCHEMA_ID", AvroType::Long)?;
    Ok(AvroType::Record(fields))
}

/// The type of the file in an entry.
fn file_kind(alloc: Global) -> Result<AvroType, AllocError>
    ensures { IfOk result (λ t. types.view t ≡ file_type) }
{
    let mut fields = Vec::with_capacity(alloc, 12)?;
    push_field(alloc, &mut fields, "_FILE_NAME", AvroType::Text)?;
    push_field(alloc, &mut fields, "_FILE_SIZE", AvroType::Long)?;
    push_field(alloc, &mut fields, "_ROW_COUNT", AvroType::Long)?;
    push_field(alloc, &mut fields, "_MIN_KEY", AvroType::Bytes)?;
    push_field(alloc, &mut fields, "_MAX_KEY", AvroType::Bytes)?;
    push_field(alloc, &mut fields, "_KEY_STATS", statistics_kind(alloc)?)?;
    push_field(alloc, &mut fields, "_VALUE_STATS", statistics_kind(alloc)?)?;
    push_field(alloc, &mut fields, "_MIN_SEQUENCE_NUMBER", AvroType::Long)?;
    push_field(alloc, &mut fields, "_MAX_SEQUENCE_NUMBER", AvroType::Long)?;
    push_field(alloc, &mut fields, "_SCHEMA_ID", AvroType::Long)?;
    push_field(alloc, &mut fields, "_LEVEL", AvroType::Int)?;
    let time = or_null(alloc, AvroType::Long)?;
    push_field(alloc, &mut fields, "_CREATION_TIME", time)?;
    Ok(AvroType::Record(fields))
}

/// The type of a manifest's records.
pub(crate) fn entry_kind(alloc: Global) -> Result<AvroType, AllocError>
    ensures { IfOk result (λ t. types.view t ≡ entry_type) }
{
    let mut fields = Vec::with_capacity(alloc, 6)?;
    push_field(alloc, &mut fields, "_VERSION", AvroType::Int)?;
    push_field(alloc, &mut fields, "_KIND", AvroType::Int)?;
    push_field(alloc, &mut fields, "_PARTITION", AvroType::Bytes)?;
    push_field(alloc, &mut fields, "_BUCKET", AvroType::Int)?;
    push_field(alloc, &mut fields, "_TOTAL_BUCKETS", AvroType::Int)?;
    push_field(alloc, &mut fields, "_FILE", file_kind(alloc)?)?;
    Ok(AvroType::Record(fields))
}
