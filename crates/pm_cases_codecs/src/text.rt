//! Texts that stand for bytes, days, partition values and numbers.

use pm_cases::Case;
use pm_schema::partition_text;
use pm_snapshot::{base_of_name, floor_of_name, id_of_name, snapshot_name};
use pm_value_text::{is_day, parse_date, parse_hex, print_date};
use pm_values::{Kind, Names, Txt, Value};
use std::alloc::AllocError;

/// The digits that are printed for the bytes of a text, and the bytes; or `none`.
pub fn hex_answer(case: &mut Case, argument: &str) {
    let text = case.text(argument);
    match parse_hex(case.alloc(), text.as_str()) {
        Ok(Some(bytes)) => {
            case.say("\"");
            case.say_digits(&bytes);
            case.say_made(format!(in case.alloc(); "\"\t{bytes:?}"));
        }
        Ok(None) => case.say("none"),
        Err(_) => case.run_out(),
    }
}

/// The day of a text, counted from 1970-01-01, and the text that is printed for it; or `none`.
pub fn date_answer(case: &mut Case, argument: &str) {
    let text = case.text(argument);
    match parse_date(text.as_str()) {
        Some(day) if is_day(day) => {
            case.say_made(format!(in case.alloc(); "{day}\t"));
            case.say_made(print_date(case.alloc(), day));
        }
        Some(day) => case.say_made(format!(in case.alloc(); "{day} is no day")),
        None => case.say("none"),
    }
}

/// The text of a partition's value: a truth, a number, or a text after `=`.
pub fn partition_answer(case: &mut Case, argument: &str) {
    match (argument, argument.parse::<i64>()) {
        ("true", _) => say_partition_truth(case, true),
        ("false", _) => say_partition_truth(case, false),
        (_, Ok(number)) => say_partition_number(case, number),
        (text, _) => say_partition_text(case, text.strip_prefix('=').unwrap_or(text)),
    }
}

/// Says the text of a truth.
fn say_partition_truth(case: &mut Case, truth: bool) {
    let text = partition_text(case.alloc(), &Value::Bool(truth));
    say_text(case, text);
}

/// Says the text of a number.
fn say_partition_number(case: &mut Case, number: i64) {
    let text = partition_text(case.alloc(), &Value::Int(number));
    say_text(case, text);
}

/// Says the text of a text.
fn say_partition_text(case: &mut Case, text: &str) {
    if let Some(text) = case.made(Txt::from_str(case.alloc(), text)) {
        let value = Value::Text(text);
        let text = partition_text(case.alloc(), &value);
        drop(value);
        say_text(case, text);
    }
}

/// Says a text that was made.
pub fn say_text(case: &mut Case, text: Result<Txt, AllocError>) {
    match text {
        Ok(text) => case.say(text.as_str()),
        Err(_) => case.run_out(),
    }
}

/// The number that a reader of names finds in one; or `none`.
pub fn name_answer(case: &mut Case, arguments: &str) {
    let (part, name) = case.split(arguments);
    let name = case.bytes(name);
    let number = match part {
        "id" => id_of_name(&name),
        "floor" => floor_of_name(&name),
        "base" => base_of_name(&name),
        _ => return case.reject(),
    };
    match number {
        Some(number) => case.say_made(format!(in case.alloc(); "{number}")),
        None => case.say("none"),
    }
}

/// The name of the file of a snapshot.
pub fn snapshot_name_answer(case: &mut Case, id: &str) {
    let id = case.number(id);
    case.say_line(snapshot_name(case.alloc(), id));
}

/// The first two names that an actor of the session 2 gives, before and after it has another base.
pub fn names_answer(case: &mut Case, arguments: &str) {
    let (actor, rest) = case.split(arguments);
    let (base, then) = case.split(rest);
    let actor = case.small(actor);
    let base = case.number(base);
    let then = case.number(then);
    let session = [0, 0, 0, 0, 0, 0, 0, 0, 0, 0, 0, 0, 0, 0, 0, 2];
    let mut names = Names::new(session, actor, base);
    say_text(case, names.take(case.alloc(), "data-", ".avro"));
    names.set_base(then);
    case.say(" ");
    say_text(case, names.take(case.alloc(), "manifest-", ""));
    case.say_made(format!(in case.alloc(); " {}", names.actor()));
}

/// What a number is as a kind: its number again, and whether it takes away.
pub fn kind_answer(case: &mut Case, number: &str) {
    let number = case.signed(number);
    match Kind::from_code(number) {
        Some(kind) => {
            case.say_made(format!(in case.alloc(); "{} {}", kind.code(), kind.retracts()));
        }
        None => case.say("none"),
    }
}
