//! The Avro types of the records that are written.

ghost use Rattle.std.specs.Prelude.{◌≡◌, ◌++◌, ◌∷◌, [], map, IfOk, OnOk};
ghost use Rattle.pm_avro_schema.specs.Avro.{record_of};
ghost use Rattle.pm_avro_schema.specs.View as types;
ghost use Rattle.pm_run.specs.Kinds.{field_type, or_null, run_type, typed_field, value_type};

use crate::form::TableForm;
use pm_avro_schema::AvroType;
use pm_base::Txt;
use pm_run::Field;
use pm_values::ColType;
use std::alloc::{AllocError, Global};

/// The type of a row's record.
pub fn run_kind(alloc: Global, form: &TableForm) -> Result<AvroType, AllocError>
    ensures { IfOk result (λ t. types.view t ≡ run_type form.now) }
{
    let mut fields = Vec::new(alloc);
    push_fields(alloc, &mut fields, &form.keys)?;
    push_field(alloc, &mut fields, "_SEQUENCE_NUMBER", AvroType::Long)?;
    push_field(alloc, &mut fields, "_VALUE_KIND", AvroType::Int)?;
    push_fields(alloc, &mut fields, &form.columns)?;
    Ok(record_kind(fields))
}

/// The type of a record with the fields.
fn record_kind(fields: Vec<(Txt, AvroType)>) -> AvroType
    ensures { types.view result ≡ record_of (types.fields_view fields.items) }
{
    AvroType::Record(fields)
}

/// Adds the fields of columns to those of a record.
fn push_fields(
    alloc: Global,
    fields: &mut Vec<(Txt, AvroType)>,
    columns: &[Field],
) -> Result<(), AllocError>
    ensures { OnOk result (map types.field_view fields.new.items
        ≡ map types.field_view fields.old.items ++ map typed_field columns.now) }
{
    for column in columns {
        push_field(
            alloc,
            fields,
            column.name.as_str(),
            field_kind(alloc, column)?,
        )?;
    }
    Ok(())
}

/// Adds a field to those of a record.
fn push_field(
    alloc: Global,
    fields: &mut Vec<(Txt, AvroType)>,
    name: &str,
    kind: AvroType,
) -> Result<(), AllocError>
    ensures { OnOk result (map types.field_view fields.new.items
        ≡ map types.field_view fields.old.items ++ (name.now, types.view kind) ∷ []) }
{
    fields.push((Txt::from_str(alloc, name)?, kind))?;
    Ok(())
}

/// The type of a field.
fn field_kind(alloc: Global, field: &Field) -> Result<AvroType, AllocError>
    ensures { IfOk result (λ t. types.view t ≡ field_type field.now) }
{
    if field.nullable {
        or_null(alloc, value_kind(field.kind))
    } else {
        Ok(value_kind(field.kind))
    }
}

/// Null or the type.
fn or_null(alloc: Global, kind: AvroType) -> Result<AvroType, AllocError>
    ensures { IfOk result (λ t. types.view t ≡ or_null (types.view kind)) }
{
    let mut branches = Vec::with_capacity(alloc, 2)?;
    branches.push(AvroType::Null)?;
    branches.push(kind)?;
    Ok(AvroType::Union(branches))
}

/// The type of a column's values.
fn value_kind(kind: ColType) -> AvroType
    ensures { types.view result ≡ value_type kind }
{
    match kind {
        ColType::Boolean => AvroType::Boolean,
        ColType::TinyInt | ColType::SmallInt | ColType::Int | ColType::Date => AvroType::Int,
        ColType::BigInt | ColType::Timestamp => AvroType::Long,
        ColType::Text => AvroType::Text,
        ColType::Bytes => AvroType::Bytes,
    }
}
