//! The records of manifest lists and manifests, printed.

use pm_cases::{Case, say_between};
use pm_manifest::{Entry, ManifestMeta};
use pm_values::{FileMeta, Value};

/// Says a manifest: its name, its size, the numbers of its ADD and of its DELETE entries, and its schema's id.
pub fn say_meta(case: &mut Case, meta: &ManifestMeta) {
    case.say("[");
    case.say_quoted(meta.name.as_str());
    case.say_made(format!(in case.alloc(); ",{},{}", meta.size, meta.added));
    case.say_made(format!(in case.alloc(); ",{},{}]", meta.deleted, meta.schema_id));
}

/// Says an entry: its kind, its partition, its bucket, how many buckets there are, and its file.
pub fn say_entry(case: &mut Case, entry: &Entry) {
    case.say(if entry.add {
        "[\"ADD\","
    } else {
        "[\"DELETE\","
    });
    say_values(case, entry.group.partition.values());
    case.say_made(format!(in case.alloc(); ",{},{},", entry.group.bucket, entry.buckets));
    say_file(case, &entry.file);
    case.say("]");
}

/// Says a file: its name, its size, its rows, its least and its greatest key, its least and its greatest sequence
/// number, its schema's id, its level, and when it was made.
fn say_file(case: &mut Case, file: &FileMeta) {
    case.say_quoted(file.name.as_str());
    case.say_made(format!(in case.alloc(); ",{},{},", file.size, file.rows));
    say_values(case, file.min_key.values());
    case.say(",");
    say_values(case, file.max_key.values());
    case.say_made(format!(in case.alloc(); ",{},{}", file.min_seq, file.max_seq));
    case.say_made(format!(in case.alloc(); ",{},{},", file.schema_id, file.level));
    case.say_optional(file.created);
}

/// Says values with commas between them.
fn say_values(case: &mut Case, values: &[Value]) {
    let mut is_later = false;
    case.say("[");
    for value in values {
        say_between(case, is_later, ",");
        say_value(case, value);
        is_later = true;
    }
    case.say("]");
}

/// Says a value: a text as in JSON, bytes as `#` and their digits, and a day or a moment as its number after its unit.
fn say_value(case: &mut Case, value: &Value) {
    match value {
        Value::Null => case.say("null"),
        Value::Bool(flag) => case.say_truth(*flag),
        Value::Int(number) => case.say_number(*number),
        Value::Text(content) => case.say_quoted(content.as_str()),
        Value::Bytes(bytes) => {
            case.say("#");
            case.say_digits(bytes.as_bytes());
        }
        Value::Day(day) => case.say_made(format!(in case.alloc(); "day {day}")),
        Value::Millis(millis) => case.say_made(format!(in case.alloc(); "ms {millis}")),
    }
}
