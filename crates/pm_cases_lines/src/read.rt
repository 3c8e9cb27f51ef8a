//! The reading of a line, from its JSON.

use crate::act::{Act, Deed};
use crate::bytes::{Form, push_part, read_digits};
use crate::command::{Command, ROOM};
use crate::line::{Line, LineFault, Step};
use crate::names::Names;
use pm_base::{Blob, Txt};
use pm_store::{Effect, Planned};
use serde_json::Value;
use std::alloc::Global;

/// The line that a text is.
pub fn read_line(alloc: Global, names: &Names, text: &str) -> Result<Line, LineFault> {
    let json = match Value::from_str(alloc, text) {
        Ok(json) => json,
        Err(e) if e.is_memory() => return Err(LineFault::Memory),
        Err(_) => return Err(LineFault::Unknown),
    };
    match items_of(&json)? {
        [kind, parts @ ..] => line_of(alloc, names, text_of(kind)?, parts),
        [] => Err(LineFault::Unknown),
    }
}

/// The line of a kind that has these parts.
fn line_of(alloc: Global, names: &Names, kind: &str, parts: &[Value]) -> Result<Line, LineFault> {
    match (kind, parts) {
        ("case", [name]) => Ok(Line::Case {
            name: read_text(alloc, name)?,
        }),
        ("again", [most]) => Ok(Line::Again {
            most: number_of(most)?,
        }),
        ("name", [name, part]) => Ok(Line::Name {
            name: read_text(alloc, name)?,
            bytes: read_bytes(alloc, names, part)?,
        }),
        ("note", [text]) if text.as_str().is_some() => Ok(Line::Note),
        _ => Ok(Line::Step(step_of(alloc, names, kind, parts)?)),
    }
}

/// The line of a case, of a kind that has these parts.
fn step_of(alloc: Global, names: &Names, kind: &str, parts: &[Value]) -> Result<Step, LineFault> {
    match (kind, parts) {
        ("store", [plan]) => Ok(Step::Store {
            plan: read_plan(alloc, plan)?,
        }),
        ("as", [name]) => Ok(Step::As {
            name: read_text(alloc, name)?,
        }),
        ("before", [call, line]) => Ok(Step::Before(read_act(alloc, names, call, line)?)),
        ("calls", []) => Ok(Step::Calls),
        ("list", [folder]) => Ok(Step::List {
            folder: read_text(alloc, folder)?,
        }),
        ("files", []) => Ok(Step::Files),
        ("files", [what]) if text_of(what)? == "sum" => Ok(Step::Sum),
        _ => Ok(Step::Do(deed_of(alloc, names, kind, parts)?)),
    }
}

/// What others do before a call: a line that puts, edits, takes or runs.
fn read_act(alloc: Global, names: &Names, call: &Value, line: &Value) -> Result<Act, LineFault> {
    let call = number_of(call)?;
    match items_of(line)? {
        [kind, parts @ ..] => Ok(Act {
            call,
            deed: deed_of(alloc, names, text_of(kind)?, parts)?,
        }),
        [] => Err(LineFault::Unknown),
    }
}

/// What a line of a kind that has these parts does to files.
fn deed_of(alloc: Global, names: &Names, kind: &str, parts: &[Value]) -> Result<Deed, LineFault> {
    match (kind, parts) {
        ("put", [path, part]) => Ok(Deed::Put {
            path: read_text(alloc, path)?,
            bytes: read_bytes(alloc, names, part)?,
        }),
        ("edit", [path, name, old, new]) => Ok(Deed::Put {
            path: read_text(alloc, path)?,
            bytes: read_edited(alloc, names, name, text_of(old)?, text_of(new)?)?,
        }),
        ("take", [path]) => Ok(Deed::Take {
            path: read_text(alloc, path)?,
        }),
        ("run", [session, now, words, lines]) => Ok(Deed::Run(read_command(
            alloc,
            names,
            session,
            now,
            words,
            lines,
            &Value::Null,
        )?)),
        ("run", [session, now, words, lines, options]) => Ok(Deed::Run(read_command(
            alloc, names, session, now, words, lines, options,
        )?)),
        _ => Err(LineFault::Unknown),
    }
}

/// A command: its session, its moment, its words, the lines of its input, and its options.
fn read_command(
    alloc: Global,
    names: &Names,
    session: &Value,
    now: &Value,
    words: &Value,
    lines: &Value,
    options: &Value,
) -> Result<Command, LineFault> {
    Ok(Command {
        session: u8::try_from(number_of(session)?).map_err(|_| LineFault::Unknown)?,
        now: now.as_i64().ok_or(LineFault::Unknown)?,
        words: read_words(alloc, words)?,
        input: read_input(alloc, names, lines, is_set(options, "open"))?,
        room: match options.get("room") {
            Some(room) => number_of(room)? as usize,
            None => ROOM,
        },
        sink: read_numbers(alloc, options.get("sink"))?,
        source: read_numbers(alloc, options.get("source"))?,
        sum: is_set(options, "sum"),
    })
}

/// The words of a command.
fn read_words(alloc: Global, words: &Value) -> Result<Vec<Txt>, LineFault> {
    let mut found = Vec::new(alloc);
    for word in items_of(words)? {
        found.push(Txt::from_str(alloc, text_of(word)?)?)?;
    }
    Ok(found)
}

/// Whether an option is `true`.
fn is_set(options: &Value, key: &str) -> bool {
    matches!(options.get(key), Some(Value::Bool(true)))
}

/// Lines, each with its newline, but for the last one where that is open.
fn read_input(
    alloc: Global,
    names: &Names,
    lines: &Value,
    is_open: bool,
) -> Result<Vec<u8>, LineFault> {
    let mut input = Vec::new(alloc);
    for line in items_of(lines)? {
        push_part(alloc, names, Form::Text, &mut input, line)?;
        input.push(b'\n')?;
    }
    if is_open {
        let _ = input.pop();
    }
    Ok(input)
}

/// The numbers of calls that fail, none where nothing is said of them.
fn read_numbers(alloc: Global, numbers: Option<&Value>) -> Result<Vec<u64>, LineFault> {
    let mut found = Vec::new(alloc);
    if let Some(numbers) = numbers {
        for number in items_of(numbers)? {
            found.push(number_of(number)?)?;
        }
    }
    Ok(found)
}

/// The calls of a store that fail, each with its effect.
fn read_plan(alloc: Global, plan: &Value) -> Result<Vec<Planned>, LineFault> {
    let mut found = Vec::new(alloc);
    for planned in items_of(plan)? {
        let [call, effect] = items_of(planned)? else {
            return Err(LineFault::Unknown);
        };
        found.push(Planned {
            call: number_of(call)?,
            effect: read_effect(alloc, text_of(effect)?)?,
        })?;
    }
    Ok(found)
}

/// How much of a call that fails is carried out.
fn read_effect(alloc: Global, text: &str) -> Result<Effect, LineFault> {
    match text.strip_prefix("part ") {
        Some(digits) => {
            let bytes = read_digits(alloc, digits)?;
            Ok(Effect::Part(Some(Blob::from_slice(alloc, &bytes)?)))
        }
        None => match text {
            "none" => Ok(Effect::None),
            "whole" => Ok(Effect::Whole),
            "absent" => Ok(Effect::Part(None)),
            _ => Err(LineFault::Unknown),
        },
    }
}

/// The bytes that a part stands for.
fn read_bytes(alloc: Global, names: &Names, part: &Value) -> Result<Vec<u8>, LineFault> {
    let mut bytes = Vec::new(alloc);
    push_part(alloc, names, Form::Digits, &mut bytes, part)?;
    Ok(bytes)
}

/// The bytes of a name, with a text in the place of the first one that is another text.
fn read_edited(
    alloc: Global,
    names: &Names,
    name: &Value,
    old: &str,
    new: &str,
) -> Result<Vec<u8>, LineFault> {
    let named = names.find(text_of(name)?).ok_or(LineFault::Unknown)?;
    let text = str::from_utf8(named).map_err(|_| LineFault::Unknown)?;
    if !text.contains(old) {
        return Err(LineFault::Unknown);
    }
    let edited = text.replacen(alloc, old, new, 1)?;
    Ok(Vec::from_slice(alloc, edited.as_bytes())?)
}

/// A copy of the text that a value is.
fn read_text(alloc: Global, value: &Value) -> Result<String, LineFault> {
    Ok(String::from_str(alloc, text_of(value)?)?)
}

/// The items of a value that is an array.
fn items_of(value: &Value) -> Result<&[Value], LineFault> {
    match value.as_array() {
        Some(items) => Ok(items.as_slice()),
        None => Err(LineFault::Unknown),
    }
}

/// The text that a value is.
fn text_of(value: &Value) -> Result<&str, LineFault> {
    value.as_str().ok_or(LineFault::Unknown)
}

/// The number without a sign that a value is.
fn number_of(value: &Value) -> Result<u64, LineFault> {
    value.as_u64().ok_or(LineFault::Unknown)
}
