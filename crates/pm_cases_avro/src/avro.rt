//! Avro's types, and what is tried with one.

ghost use Rattle.pm_avro_schema.specs.Readable.{IsReadable};
ghost use Rattle.pm_avro_schema.specs.View as types;

use crate::{avro_datum, avro_record};
use pm_avro_schema::{AvroFault, AvroType, parse, print};
use pm_cases::Case;

/// What a codec answers of the type that a text declares, or the text's fault. After a TAB stands what else it takes.
pub fn avro_answer(case: &mut Case, codec: &str, arguments: &str) {
    let (schema, rest) = arguments.split_once('\t').unwrap_or((arguments, ""));
    let schema = case.bytes(schema);
    match parse(case.alloc(), &schema) {
        Ok(kind) => answer_of(case, codec, kind, rest),
        Err(fault) => say_fault(case, fault),
    }
}

/// The same of a type.
fn answer_of(case: &mut Case, codec: &str, kind: AvroType, rest: &str)
    requires { IsReadable (types.view kind) }
{
    match codec {
        "avro-type" => say_copy(case, &kind),
        "record" => avro_record::answer(case, &kind, rest),
        _ => avro_datum::answer(case, codec, &kind, rest),
    }
    drop(kind);
}

/// Says the JSON of a copy of a type.
fn say_copy(case: &mut Case, kind: &AvroType)
    requires { IsReadable (types.view kind.now) }
{
    match kind.copy(case.alloc()) {
        Ok(copy) => say_type(case, copy),
        Err(_) => case.run_out(),
    }
}

/// Says the JSON of a type.
fn say_type(case: &mut Case, kind: AvroType)
    requires { IsReadable (types.view kind) }
{
    match print(case.alloc(), &kind) {
        Ok(text) => case.say_bytes(&text),
        Err(fault) => say_fault(case, fault),
    }
    drop(kind);
}

/// Says a fault.
pub fn say_fault(case: &mut Case, fault: AvroFault) {
    match &fault {
        AvroFault::Memory => case.say("memory"),
        AvroFault::Unsupported { what, text } => {
            case.say_made(format!(in case.alloc();
                "unsupported {} {:?}",
                what.as_str(),
                text.as_str()
            ));
        }
        AvroFault::Bad(offset) => case.say_made(format!(in case.alloc(); "bad {offset}")),
    }
    drop(fault);
}
