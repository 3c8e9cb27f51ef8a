//! Records in types and in data.

ghost use Rattle.std.specs.Prelude.{◌≡◌, option_map};
ghost use Rattle.pm_avro_schema.specs.View as types;
ghost use Rattle.pm_avro_data.specs.Datum.{view};
ghost use Rattle.pm_record.specs.Record.{is_null, other_branch, optional, beside_null, not_null, inner, present};
ghost use Rattle.pm_record.specs.Record.{record_fields, type_in, type_of_field};

use pm_avro_data::Datum;
use pm_avro_schema::AvroType;
use pm_base::Txt;

/// Whether it is the type of null.
fn is_null(kind: &AvroType) -> bool
    ensures { result ≡ is_null (types.view kind.now) }
{
    matches!(kind, AvroType::Null)
}

/// Of exactly two branches that which stands beside null.
fn other_branch(branches: &[AvroType]) -> Option<&AvroType>
    ensures { option_map (λ t. types.view t.now) result ≡ other_branch (types.branches_view branches.now) }
{
    let (first, later) = branches.split_first()?;
    let (second, more) = later.split_first()?;
    if !more.is_empty() {
        None
    } else if is_null(first) {
        Some(second)
    } else if is_null(second) {
        Some(first)
    } else {
        None
    }
}

/// The type that stands beside null in a union of exactly the two.
fn optional(kind: &AvroType) -> Option<&AvroType>
    ensures { option_map (λ t. types.view t.now) result ≡ optional (types.view kind.now) }
{
    match kind {
        AvroType::Union(branches) => other_branch(branches),
        _ => None,
    }
}

/// That type; any other type is itself.
fn beside_null(kind: &AvroType) -> &AvroType
    ensures { types.view result.now ≡ beside_null (types.view kind.now) }
{
    match optional(kind) {
        Some(other) => other,
        None => kind,
    }
}

/// The datum of a union's branch; any other datum is itself.
fn inner(datum: Datum) -> Datum
    ensures { view result ≡ inner (view datum) }
{
    match datum {
        Datum::Branch(_, leaf) => leaf.into_datum(),
        Datum::Union(_, inner) => Box::into_inner(inner),
        other => other,
    }
}

/// A datum that isn't null.
fn not_null(datum: Datum) -> Option<Datum>
    ensures { option_map view result ≡ not_null (view datum) }
{
    match datum {
        Datum::Null => None,
        other => Some(other),
    }
}

/// A datum of the type without the union of null and one more type, and none where it is null. In any other union it
/// stays as it is.
pub fn present(kind: &AvroType, datum: Datum) -> Option<Datum>
    ensures { option_map view result ≡ present (types.view kind.now) (view datum) }
{
    if optional(kind).is_some() {
        not_null(inner(datum))
    } else {
        not_null(datum)
    }
}

/// The fields of the record that a type is, or that stands in it beside null.
pub(crate) fn record_fields(kind: &AvroType) -> Option<&Vec<(Txt, AvroType)>>
    ensures { option_map (λ fs. types.fields_view fs.now.items) result ≡ record_fields (types.view kind.now) }
{
    match beside_null(kind) {
        AvroType::Record(fields) => Some(fields),
        _ => None,
    }
}

/// The type of the first field of a name.
fn field_of<'k>(fields: &'k Vec<(Txt, AvroType)>, name: &str) -> Option<&'k AvroType>
    ensures { option_map (λ t. types.view t.now) result ≡ type_in name.now (types.fields_view fields.now.items) }
{
    for field in fields {
        if field.0.as_str() == name {
            return Some(&field.1);
        }
    }
    None
}

/// The type of the field of a name in the record that a type is, or that stands in it beside null.
pub fn field_kind<'k>(kind: &'k AvroType, name: &str) -> Option<&'k AvroType>
    ensures { option_map (λ t. types.view t.now) result ≡ type_of_field name.now (types.view kind.now) }
{
    match record_fields(kind) {
        Some(fields) => field_of(fields, name),
        None => None,
    }
}
