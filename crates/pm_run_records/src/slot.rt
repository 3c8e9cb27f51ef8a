//! How the fields of a file's records stand to a table's columns, and the values that their data are.

ghost use Rattle.std.specs.Prelude.{◌≡◌, ◌≢◌, IfOk};
ghost use Rattle.pm_avro_schema.specs.View as types;
ghost use Rattle.pm_avro_data.specs.Datum.{view};
ghost use Rattle.pm_record.specs.Record as records;
ghost use Rattle.pm_run.specs.Kinds.{fit_at, fit_of, has_values, has_values_or_null, have_values, slot_of, slots_of};
ghost use Rattle.pm_run.specs.Row.{day_in, optional_in, scalar_in, value_in, whole_in};
ghost use Rattle.pm_run.specs.Taking.{found};

use pm_avro_data::Datum;
use pm_avro_schema::AvroType;
use pm_base::Blob;
use pm_record::{Misfit, field_kind, read_boolean, read_int, read_long, take_bytes, take_text};
use pm_run::{Field, Fit, Slot};
use pm_values::{ColType, Value};
use std::alloc::{AllocError, Global};

/// The number of 0001-01-01, in days from 1970-01-01.
const FIRST_DAY: i32 = -719162;

/// The number of 9999-12-31.
const LAST_DAY: i32 = 2932896;

/// How fields are read in records of a type.
pub(crate) fn slots_of(
    alloc: Global,
    kind: &AvroType,
    fields: &[Field],
) -> Result<Vec<Slot>, AllocError>
    ensures { IfOk result (λ v. v.items ≡ slots_of (types.view kind.now) fields.now) }
{
    let mut slots = Vec::with_capacity(alloc, fields.len())?;
    for field in fields {
        slots.push(slot_of(kind, field))?;
    }
    Ok(slots)
}

/// How a field is read in records of a type.
fn slot_of(kind: &AvroType, field: &Field) -> Slot
    ensures { result ≡ slot_of (types.view kind.now) field.now }
{
    Slot {
        kind: field.kind,
        nullable: field.nullable,
        fit: fit_at(kind, field),
    }
}

/// How a field of a record's type, where it has that field, stands to its column.
fn fit_at(kind: &AvroType, field: &Field) -> Fit
    ensures { result ≡ fit_at field.now.kind (records.type_of_field field.now.name (types.view kind.now)) }
{
    match field_kind(kind, field.name.as_str()) {
        Some(found) => fit_of(field.kind, found),
        None => Fit::Unfit,
    }
}

/// How a type stands to a column.
fn fit_of(kind: ColType, avro: &AvroType) -> Fit
    ensures { result ≡ fit_of kind (types.view avro.now) }
{
    match avro {
        AvroType::Union(branches) => {
            if have_values(kind, branches) {
                Fit::Optional
            } else {
                Fit::Unfit
            }
        }
        plain => {
            if has_values(kind, plain) {
                Fit::Plain
            } else {
                Fit::Unfit
            }
        }
    }
}

/// Whether of exactly two branches one is null, and the other the type of a column's values.
fn have_values(kind: ColType, branches: &[AvroType]) -> bool
    ensures { result ≡ have_values kind (types.branches_view branches.now) }
{
    let Some((first, later)) = branches.split_first() else {
        return false;
    };
    let Some((second, more)) = later.split_first() else {
        return false;
    };
    if !more.is_empty() {
        return false;
    }
    has_values_or_null(kind, first, second)
}

/// Whether of two types one is null, and the other that of a column's values.
fn has_values_or_null(kind: ColType, first: &AvroType, second: &AvroType) -> bool
    ensures { result ≡ has_values_or_null kind (types.view first.now) (types.view second.now) }
{
    (is_null(first) && has_values(kind, second)) || (has_values(kind, first) && is_null(second))
}

/// Whether null alone is of a type.
fn is_null(kind: &AvroType) -> bool
    ensures { result ≡ records.is_null (types.view kind.now) }
{
    matches!(kind, AvroType::Null)
}

/// Whether a type is that of a column's values; an int may stand for a long.
fn has_values(kind: ColType, avro: &AvroType) -> bool
    ensures { result ≡ has_values kind (types.view avro.now) }
{
    match kind {
        ColType::Boolean => matches!(avro, AvroType::Boolean),
        ColType::TinyInt | ColType::SmallInt | ColType::Int | ColType::Date => {
            matches!(avro, AvroType::Int)
        }
        ColType::BigInt | ColType::Timestamp => matches!(avro, AvroType::Int | AvroType::Long),
        ColType::Text => matches!(avro, AvroType::Text),
        ColType::Bytes => matches!(avro, AvroType::Bytes),
    }
}

/// The value that a datum of a field is.
pub(crate) fn read_value(slot: Slot, datum: Datum) -> Result<Value, Misfit>
    ensures { result ≡ value_in slot (view datum) }
{
    match slot.fit {
        Fit::Plain => read_scalar(slot.kind, datum).ok_or(Misfit::Bad),
        Fit::Optional => read_branch(slot, datum),
        Fit::Unfit => Err(Misfit::Bad),
    }
}

/// The value that a datum of the union of null and a column's type is.
fn read_branch(slot: Slot, datum: Datum) -> Result<Value, Misfit>
    requires { slot.fit ≡ Fit.Optional }
    ensures { result ≡ value_in slot (view datum) }
{
    match datum {
        Datum::Branch(_, leaf) => read_optional(slot, leaf.into_datum()),
        Datum::Union(_, inner) => read_optional(slot, Box::into_inner(inner)),
        _ => Err(Misfit::Bad),
    }
}

/// A value that is null or of a column's type.
fn read_optional(slot: Slot, datum: Datum) -> Result<Value, Misfit>
    ensures { result ≡ optional_in slot (view datum) }
{
    match datum {
        Datum::Null => {
            if slot.nullable {
                Ok(Value::Null)
            } else {
                Err(Misfit::Bad)
            }
        }
        other => read_scalar(slot.kind, other).ok_or(Misfit::Bad),
    }
}

/// The value of a column's type that a datum is, moved out of it.
fn read_scalar(kind: ColType, datum: Datum) -> Option<Value>
    ensures { result ≡ scalar_in kind (view datum) }
{
    match kind {
        ColType::Text => Some(Value::Text(take_text(datum)?)),
        ColType::Bytes => Some(Value::Bytes(Blob::new(take_bytes(datum)?))),
        other => {
            let value = read_plain(other, &datum);
            drop(datum);
            value
        }
    }
}

/// The value of a column's type that a datum is, where that type's values have no memory of their own.
fn read_plain(kind: ColType, datum: &Datum) -> Option<Value>
    requires text { kind ≢ ColType.Text }
    requires bytes { kind ≢ ColType.Bytes }
    ensures { result ≡ scalar_in kind (view datum.now) }
{
    match kind {
        ColType::Boolean => Some(Value::Bool(read_boolean(datum)?)),
        ColType::TinyInt => whole_in(i64::from(i8::MIN), i64::from(i8::MAX), read_int(datum)?),
        ColType::SmallInt => whole_in(i64::from(i16::MIN), i64::from(i16::MAX), read_int(datum)?),
        ColType::Int => Some(Value::Int(i64::from(read_int(datum)?))),
        ColType::BigInt => Some(Value::Int(read_long(datum)?)),
        ColType::Date => day_in(read_int(datum)?),
        ColType::Timestamp => Some(Value::Millis(read_long(datum)?)),
        ColType::Text | ColType::Bytes => unreachable!(),
    }
}

/// An integer from the low one to the high one.
fn whole_in(low: i64, high: i64, number: i32) -> Option<Value>
    ensures { result ≡ whole_in low high number }
{
    let number = i64::from(number);
    if low <= number && number <= high {
        Some(Value::Int(number))
    } else {
        None
    }
}

/// A day from 0001-01-01 to 9999-12-31.
fn day_in(day: i32) -> Option<Value>
    ensures { result ≡ day_in day }
{
    if FIRST_DAY <= day && day <= LAST_DAY {
        Some(Value::Day(day))
    } else {
        None
    }
}
