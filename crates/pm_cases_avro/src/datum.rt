//! Avro's data, printed.

use pm_avro_data::{Datum, Leaf};
use pm_base::Txt;
use pm_cases::Case;

/// Says a datum: a number, `true`, `null` or a text as in JSON, bytes as `#` and their digits, and what is made of
/// other data in parentheses, after its kind.
#[cycle(print)]
pub fn say_datum(case: &mut Case, datum: &Datum) {
    match datum {
        Datum::Null => case.say("null"),
        Datum::Bool(flag) => case.say_truth(*flag),
        Datum::Int(number) => case.say_number(i64::from(*number)),
        Datum::Long(number) => case.say_number(*number),
        Datum::Bytes(bytes) => say_bytes(case, bytes),
        Datum::Text(content) => case.say_quoted(content.as_str()),
        Datum::Record(values) => say_data(case, "(record", values),
        Datum::Array(items) => say_data(case, "(array", items),
        Datum::Map(entries) => say_entries(case, entries),
        Datum::Branch(index, leaf) => {
            case.say_made(format!(in case.alloc(); "(union {index} "));
            say_leaf(case, leaf);
            case.say(")");
        }
        Datum::Union(index, datum) => {
            case.say_made(format!(in case.alloc(); "(union {index} "));
            say_datum(case, datum);
            case.say(")");
        }
    }
}

/// Says a datum that holds no other.
fn say_leaf(case: &mut Case, leaf: &Leaf) {
    match leaf {
        Leaf::Null => case.say("null"),
        Leaf::Bool(flag) => case.say_truth(*flag),
        Leaf::Int(number) => case.say_number(i64::from(*number)),
        Leaf::Long(number) => case.say_number(*number),
        Leaf::Bytes(bytes) => say_bytes(case, bytes),
        Leaf::Text(content) => case.say_quoted(content.as_str()),
    }
}

/// Says bytes.
fn say_bytes(case: &mut Case, bytes: &[u8]) {
    case.say("#");
    case.say_digits(bytes);
}

/// Says what a kind of datum is made of.
#[cycle(print)]
pub fn say_data(case: &mut Case, kind: &str, data: &Vec<Datum>) {
    case.say(kind);
    for datum in data {
        case.say(" ");
        say_datum(case, datum);
    }
    case.say(")");
}

/// Says a map.
#[cycle(print)]
fn say_entries(case: &mut Case, entries: &Vec<(Txt, Datum)>) {
    case.say("(map");
    for entry in entries {
        case.say(" ");
        case.say_quoted(entry.0.as_str());
        case.say(" ");
        say_datum(case, &entry.1);
    }
    case.say(")");
}
