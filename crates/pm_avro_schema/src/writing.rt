//! The JSON that declares a type, written.

ghost use Rattle.std.specs.Prelude.{◌≡◌, ◌+◌, codes, IfOk, IfErr, OnOk};
ghost use Rattle.serde_json.specs.Data.{object, member, no_members, array, string};
ghost use Rattle.serde_json.specs.View.{view as json_view, items_view};
ghost use Rattle.pm_avro_schema.specs.Readable.{IsReadable};
ghost use Rattle.pm_avro_schema.specs.Reading.{parsed_type};
ghost use Rattle.pm_avro_schema.specs.Writing.{avro_text, json_of, fields_json, branches_json, records};
ghost use Rattle.pm_avro_schema.specs.Writing.{fields_records, branches_records, record_name};
ghost use Rattle.pm_avro_schema.specs.View.{view, fields_view, branches_view};

use crate::fault::AvroFault;
use crate::kind::AvroType;
use pm_base::Txt;
use serde_json::{Value, json};
use std::alloc::{AllocError, Global};

/// The compact JSON text of a type, with its keys in order and a name `r<k>` for each record.
pub fn print(alloc: Global, kind: &AvroType) -> Result<Vec<u8>, AvroFault>
    requires { IsReadable (view kind.now) }
    ensures text { IfOk result (λ v. v.items ≡ avro_text (view kind.now)) }
    ensures again { IfOk result (λ v. parsed_type v.items ≡ Ok (view kind.now)) }
    ensures memory { IfErr result (λ e. e ≡ AvroFault.Memory) }
{
    let mut begun = 0;
    let value = json_value(alloc, kind, &mut begun)?;
    let text = value.to_string(alloc)?;
    Ok(text.into_bytes())
}

/// The JSON of a type that comes after as many records as have begun, with its own records counted.
#[cycle(value)]
fn json_value(alloc: Global, kind: &AvroType, begun: &mut u64) -> Result<Value, AvroFault>
    ensures value { IfOk result (λ v. json_view v ≡ json_of (view kind.now) begun.old) }
    ensures begun { OnOk result (begun.new ≡ begun.old + records (view kind.now)) }
    ensures memory { IfErr result (λ e. e ≡ AvroFault.Memory) }
{
    match kind {
        AvroType::Null => named(alloc, "null"),
        AvroType::Boolean => named(alloc, "boolean"),
        AvroType::Int => named(alloc, "int"),
        AvroType::Long => named(alloc, "long"),
        AvroType::Bytes => named(alloc, "bytes"),
        AvroType::Text => named(alloc, "string"),
        AvroType::Record(fields) => {
            let number = next(begun)?;
            let fields = field_values(alloc, fields, begun)?;
            Ok(record_value(alloc, fields, number)?)
        }
        AvroType::Array(items) => Ok(array_value(alloc, json_value(alloc, items, begun)?)?),
        AvroType::Map(values) => Ok(map_value(alloc, json_value(alloc, values, begun)?)?),
        AvroType::Union(branches) => Ok(Value::Array(branch_values(alloc, branches, begun)?)),
    }
}

/// The JSON of a record's fields.
#[cycle(value)]
fn field_values(
    alloc: Global,
    fields: &Vec<(Txt, AvroType)>,
    begun: &mut u64,
) -> Result<Vec<Value>, AvroFault>
    ensures value { IfOk result
        (λ v. items_view v.items ≡ fields_json (fields_view fields.now.items) begun.old) }
    ensures begun { OnOk result
        (begun.new ≡ begun.old + fields_records (fields_view fields.now.items)) }
    ensures memory { IfErr result (λ e. e ≡ AvroFault.Memory) }
{
    let mut values = Vec::new(alloc);
    for field in fields {
        let kind = json_value(alloc, &field.1, begun)?;
        values.push(field_value(alloc, field.0.as_str(), kind)?)?;
    }
    Ok(values)
}

/// The JSON of a union's branches.
#[cycle(value)]
fn branch_values(
    alloc: Global,
    branches: &Vec<AvroType>,
    begun: &mut u64,
) -> Result<Vec<Value>, AvroFault>
    ensures value { IfOk result
        (λ v. items_view v.items ≡ branches_json (branches_view branches.now.items) begun.old) }
    ensures begun { OnOk result
        (begun.new ≡ begun.old + branches_records (branches_view branches.now.items)) }
    ensures memory { IfErr result (λ e. e ≡ AvroFault.Memory) }
{
    let mut values = Vec::new(alloc);
    for branch in branches {
        values.push(json_value(alloc, branch, begun)?)?;
    }
    Ok(values)
}

/// The number of the record that begins, which is counted. More than 64 bits can number would not
/// fit memory.
fn next(begun: &mut u64) -> Result<u64, AvroFault>
    ensures number { IfOk result (λ n. n ≡ begun.old) }
    ensures begun { OnOk result (begun.new ≡ begun.old + 1) }
    ensures memory { IfErr result (λ e. e ≡ AvroFault.Memory) }
{
    let number = *begun;
    match number.checked_add(1) {
        Some(after) => {
            *begun = after;
            Ok(number)
        }
        None => Err(AvroFault::Memory),
    }
}

/// The JSON of a type that a text names.
fn named(alloc: Global, name: &str) -> Result<Value, AvroFault>
    ensures value { IfOk result (λ v. json_view v ≡ string name.now) }
    ensures memory { IfErr result (λ e. e ≡ AvroFault.Memory) }
{
    Ok(Value::try_from_str(alloc, name)?)
}

/// The JSON of the record with this number and these fields.
fn record_value(alloc: Global, fields: Vec<Value>, number: u64) -> Result<Value, AllocError>
    ensures { IfOk result (λ v. json_view v ≡ object
        (member (codes "fields") (array (items_view fields.items))
        (member (codes "name") (string (record_name number))
        (member (codes "type") (string (codes "record")) no_members)))) }
{
    let name = format!(in alloc; "r{number}")?;
    json!(in alloc; {"fields": fields, "name": name, "type": "record"})
}

/// The JSON of a field.
fn field_value(alloc: Global, name: &str, kind: Value) -> Result<Value, AllocError>
    ensures { IfOk result (λ v. json_view v ≡ object
        (member (codes "name") (string name.now)
        (member (codes "type") (json_view kind) no_members))) }
{
    json!(in alloc; {"name": name, "type": kind})
}

/// The JSON of the array with these items.
fn array_value(alloc: Global, items: Value) -> Result<Value, AllocError>
    ensures { IfOk result (λ v. json_view v ≡ object
        (member (codes "items") (json_view items)
        (member (codes "type") (string (codes "array")) no_members))) }
{
    json!(in alloc; {"items": items, "type": "array"})
}

/// The JSON of the map with these values.
fn map_value(alloc: Global, values: Value) -> Result<Value, AllocError>
    ensures { IfOk result (λ v. json_view v ≡ object
        (member (codes "type") (string (codes "map"))
        (member (codes "values") (json_view values) no_members))) }
{
    json!(in alloc; {"type": "map", "values": values})
}
