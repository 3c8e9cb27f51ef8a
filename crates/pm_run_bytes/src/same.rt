//! Whether the type of a file is the one that is written.

ghost use Rattle.std.specs.Prelude.{◌≡◌, IfOk, IfSome, IsTrue, map};
ghost use Rattle.pm_avro_schema.specs.Avro.{record_of};
ghost use Rattle.pm_avro_schema.specs.View as types;
ghost use Rattle.pm_run_bytes.specs.Direct.{IsWritten};

use pm_avro_schema::AvroType;
use pm_base::Txt;
use pm_record::all_differ;
use pm_run_form::{TableForm, run_kind};
use std::alloc::{AllocError, Global};

/// Whether records of the type are as those that are written of a form.
pub(crate) fn is_written(
    alloc: Global,
    kind: &AvroType,
    form: &TableForm,
) -> Result<bool, AllocError>
    ensures { IfOk result (λ yes. IsTrue yes → IsWritten form.now (types.view kind.now)) }
{
    if !all_differ(&form.written_names(alloc)?) {
        return Ok(false);
    }
    Ok(is_same_record(kind, &run_kind(alloc, form)?))
}

/// Whether two types are records of the same fields.
fn is_same_record(one: &AvroType, other: &AvroType) -> bool
    ensures { IsTrue result → types.view one.now ≡ types.view other.now }
{
    match (fields_of(one), fields_of(other)) {
        (Some(fields), Some(others)) => are_same_fields(fields, others),
        _ => false,
    }
}

/// The fields of a record's type.
fn fields_of(kind: &AvroType) -> Option<&[(Txt, AvroType)]>
    ensures { IfSome result (λ fields. types.view kind.now ≡ record_of (types.fields_view fields.now)) }
{
    match kind {
        AvroType::Record(fields) => Some(fields.as_slice()),
        _ => None,
    }
}

/// Whether fields are the same, with the same names.
fn are_same_fields(fields: &[(Txt, AvroType)], others: &[(Txt, AvroType)]) -> bool
    ensures { IsTrue result → map types.field_view fields.now ≡ map types.field_view others.now }
{
    if fields.len() != others.len() {
        return false;
    }
    for (index, field) in fields.iter().enumerate() {
        if !is_same_field(field, &others[index]) {
            return false;
        }
    }
    true
}

/// Whether a field is the same, with the same name.
fn is_same_field(field: &(Txt, AvroType), other: &(Txt, AvroType)) -> bool
    ensures { IsTrue result → types.field_view field.now ≡ types.field_view other.now }
{
    field.0.as_str() == other.0.as_str() && is_same(&field.1, &other.1)
}

/// Whether two types are the same union of types without others in them, or the same such type.
fn is_same(one: &AvroType, other: &AvroType) -> bool
    ensures { IsTrue result → types.view one.now ≡ types.view other.now }
{
    match (one, other) {
        (AvroType::Union(branches), AvroType::Union(others)) => are_same_leaves(branches, others),
        _ => is_same_leaf(one, other),
    }
}

/// Whether types are the same ones without others in them.
fn are_same_leaves(kinds: &[AvroType], others: &[AvroType]) -> bool
    ensures { IsTrue result → map types.view kinds.now ≡ map types.view others.now }
{
    if kinds.len() != others.len() {
        return false;
    }
    for (index, kind) in kinds.iter().enumerate() {
        if !is_same_leaf(kind, &others[index]) {
            return false;
        }
    }
    true
}

/// Whether two types are the same one without others in it.
fn is_same_leaf(one: &AvroType, other: &AvroType) -> bool
    ensures { IsTrue result → types.view one.now ≡ types.view other.now }
{
    match one {
        AvroType::Null => matches!(other, AvroType::Null),
        AvroType::Boolean => matches!(other, AvroType::Boolean),
        AvroType::Int => matches!(other, AvroType::Int),
        AvroType::Long => matches!(other, AvroType::Long),
        AvroType::Bytes => matches!(other, AvroType::Bytes),
        AvroType::Text => matches!(other, AvroType::Text),
        _ => false,
    }
}
