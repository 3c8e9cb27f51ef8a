//! A type from the JSON that declares it.

ghost use Rattle.std.specs.Prelude.{◌≡◌, ◌+◌, ◌≤◌, [], codes, option_map, IfOk, IfErr, ◌≢◌};
ghost use Rattle.serde_json.specs.Data.{depth, items_depth};
ghost use Rattle.serde_json.specs.Find.{get};
ghost use Rattle.serde_json.specs.Read.{max_depth};
ghost use Rattle.serde_json.specs.View.{view as json_view, items_view};
ghost use Rattle.pm_base.specs.Outcome.{Gives};
ghost use Rattle.pm_avro_schema.specs.Attribute.{text_at, present, object_at};
ghost use Rattle.pm_avro_schema.specs.Avro.{Avro};
ghost use Rattle.pm_avro_schema.specs.Meaning.{TypeOf};
ghost use Rattle.pm_avro_schema.specs.FieldList.{names};
ghost use Rattle.pm_avro_schema.specs.Fault.{fault_of};
ghost use Rattle.pm_avro_schema.specs.Readable.{IsReadable};
ghost use Rattle.pm_avro_schema.specs.Reading.{unsupported, named, nested, array_from, map_from, parsed_type};
ghost use Rattle.pm_avro_schema.specs.Reading.{type_at, branches_at, fields_from, fields_at, field_at};
ghost use Rattle.pm_avro_schema.specs.View.{view, field_view, fields_view, branches_view};

use crate::fault::AvroFault;
use crate::field_list::FieldList;
use crate::kind::AvroType;
use pm_base::Txt;
use serde_json::Value;
use std::alloc::Global;

/// How many types may stand around an array or a map.
const MAX_AROUND: usize = 32;

/// The type that a JSON text declares, or the text's first fault, which is `Bad` at offset 0 or
/// `Unsupported` with what `type`.
pub fn parse(alloc: Global, text: &[u8]) -> Result<AvroType, AvroFault>
    // What is parsed is declared by the text, and a fault comes only where nothing is.
    ensures declared { IfOk result (λ t. TypeOf text.now (view t)) }
    ensures refused { IfErr result (λ e. e ≢ AvroFault.Memory → (t : Avro) → ¬ TypeOf text.now t) }
    // Which fault it is: the first in the text's order.
    ensures exact { Gives view fault_of result (parsed_type text.now) }
    // It can be printed, and data of it can be read and written.
    ensures readable { IfOk result (λ t. IsReadable (view t)) }
{
    read_text(alloc, text)
}

/// The type that a JSON text is read as.
fn read_text(alloc: Global, text: &[u8]) -> Result<AvroType, AvroFault>
    ensures { Gives view fault_of result (parsed_type text.now) }
{
    match Value::from_slice(alloc, text) {
        Ok(value) => read_type(alloc, &value, 0),
        Err(e) if e.is_memory() => Err(AvroFault::Memory),
        Err(_) => Err(AvroFault::Bad(0)),
    }
}

/// The type that a value declares, with `around` types around it.
#[cycle(read)]
fn read_type(alloc: Global, value: &Value, around: usize) -> Result<AvroType, AvroFault>
    requires { around + depth (json_view value.now) ≤ max_depth }
    ensures { Gives view fault_of result (type_at (json_view value.now) around) }
{
    match value {
        Value::String(name) => read_named(alloc, name.as_str()),
        Value::Array(values) => Ok(AvroType::Union(read_branches(alloc, values, around + 1)?)),
        Value::Object(_) => read_object(alloc, value, around),
        _ => Err(AvroFault::Bad(0)),
    }
}

/// The types that the values of a list declare, in order.
#[cycle(read)]
fn read_branches(
    alloc: Global,
    values: &Vec<Value>,
    around: usize,
) -> Result<Vec<AvroType>, AvroFault>
    requires { around + items_depth (items_view values.now.items) ≤ max_depth }
    ensures { Gives (λ v. branches_view v.items) fault_of result
        (branches_at (items_view values.now.items) around) }
{
    let mut found = Vec::new(alloc);
    for value in values {
        found.push(read_type(alloc, value, around)?)?;
    }
    Ok(found)
}

/// The type that an object declares.
#[cycle(read)]
fn read_object(alloc: Global, value: &Value, around: usize) -> Result<AvroType, AvroFault>
    requires { around + depth (json_view value.now) ≤ max_depth }
    ensures { Gives view fault_of result (object_at (json_view value.now) around) }
{
    let Some(name) = text_attribute(value, "type") else {
        return Err(AvroFault::Bad(0));
    };
    if name == "record" {
        Ok(AvroType::Record(read_fields(alloc, value, around + 1)?))
    } else if name == "array" {
        read_array(alloc, value, around)
    } else if name == "map" {
        read_map(alloc, value, around)
    } else {
        read_named(alloc, name)
    }
}

/// The array whose items an object declares.
#[cycle(read)]
fn read_array(alloc: Global, value: &Value, around: usize) -> Result<AvroType, AvroFault>
    requires { around + depth (json_view value.now) ≤ max_depth }
    ensures { Gives view fault_of result (nested around
        (array_from (present (λ d. type_at d (around + 1)) (get (codes "items") (json_view value.now))))) }
{
    if around > MAX_AROUND {
        return refuse(alloc, "nesting");
    }
    let items = read_attribute(alloc, value, "items", around + 1)?;
    if items.takes_no_byte() {
        return refuse(alloc, "empty item");
    }
    Ok(AvroType::Array(Box::new(alloc, items)?))
}

/// The map whose values an object declares.
#[cycle(read)]
fn read_map(alloc: Global, value: &Value, around: usize) -> Result<AvroType, AvroFault>
    requires { around + depth (json_view value.now) ≤ max_depth }
    ensures { Gives view fault_of result (nested around
        (map_from (present (λ d. type_at d (around + 1)) (get (codes "values") (json_view value.now))))) }
{
    if around > MAX_AROUND {
        return refuse(alloc, "nesting");
    }
    let values = read_attribute(alloc, value, "values", around + 1)?;
    Ok(AvroType::Map(Box::new(alloc, values)?))
}

/// The type at an attribute of an object.
#[cycle(read)]
fn read_attribute(
    alloc: Global,
    value: &Value,
    name: &str,
    around: usize,
) -> Result<AvroType, AvroFault>
    requires { around + depth (json_view value.now) ≤ max_depth + 1 }
    ensures { Gives view fault_of result
        (present (λ d. type_at d around) (get name.now (json_view value.now))) }
{
    match value.get(name) {
        Some(inner) => read_type(alloc, inner, around),
        None => Err(AvroFault::Bad(0)),
    }
}

/// The fields of the record that an object declares.
#[cycle(read)]
fn read_fields(
    alloc: Global,
    value: &Value,
    around: usize,
) -> Result<Vec<(Txt, AvroType)>, AvroFault>
    requires { around + depth (json_view value.now) ≤ max_depth + 1 }
    ensures { Gives (λ v. fields_view v.items) fault_of result
        (present (λ d. fields_from d around) (get (codes "fields") (json_view value.now))) }
{
    match value.get("fields") {
        Some(Value::Array(list)) => read_field_list(alloc, list, around),
        _ => Err(AvroFault::Bad(0)),
    }
}

/// The fields of a list, in order.
#[cycle(read)]
fn read_field_list(
    alloc: Global,
    list: &Vec<Value>,
    around: usize,
) -> Result<Vec<(Txt, AvroType)>, AvroFault>
    requires { around + items_depth (items_view list.now.items) ≤ max_depth }
    ensures { Gives (λ v. fields_view v.items) fault_of result
        (fields_at (items_view list.now.items) [] around) }
{
    let mut found = FieldList::new(alloc);
    for value in list {
        let field = read_field(alloc, value, &found, around)?;
        found = found.with(alloc, field)?;
    }
    Ok(found.into_fields())
}

/// A field that comes after other fields.
#[cycle(read)]
fn read_field(
    alloc: Global,
    value: &Value,
    before: &FieldList,
    around: usize,
) -> Result<(Txt, AvroType), AvroFault>
    requires { around + depth (json_view value.now) ≤ max_depth }
    ensures { Gives field_view fault_of result
        (field_at (json_view value.now) (names before.now) around) }
{
    let Some(name) = text_attribute(value, "name") else {
        return Err(AvroFault::Bad(0));
    };
    if before.has_name(name) {
        return Err(AvroFault::Bad(0));
    }
    let kind = read_attribute(alloc, value, "type", around)?;
    Ok((Txt::from_str(alloc, name)?, kind))
}

/// The text at an attribute of an object.
fn text_attribute<'v>(value: &'v Value, name: &str) -> Option<&'v str>
    ensures { option_map (λ s. s.now) result ≡ text_at name.now (json_view value.now) }
{
    match value.get(name) {
        Some(inner) => inner.as_str(),
        None => None,
    }
}

/// The type that a text alone names.
fn read_named(alloc: Global, name: &str) -> Result<AvroType, AvroFault>
    ensures { Gives view fault_of result (named name.now) }
{
    if name == "null" {
        Ok(AvroType::Null)
    } else if name == "boolean" {
        Ok(AvroType::Boolean)
    } else if name == "int" {
        Ok(AvroType::Int)
    } else if name == "long" {
        Ok(AvroType::Long)
    } else if name == "bytes" {
        Ok(AvroType::Bytes)
    } else if name == "string" {
        Ok(AvroType::Text)
    } else {
        refuse(alloc, name)
    }
}

/// Refuses a type that isn't read.
fn refuse(alloc: Global, text: &str) -> Result<AvroType, AvroFault>
    ensures { Gives view fault_of result (unsupported text.now) }
{
    let what = Txt::from_str(alloc, "type")?;
    let text = Txt::from_str(alloc, text)?;
    Err(AvroFault::Unsupported { what, text })
}
