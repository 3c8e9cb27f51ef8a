//! The bytes that a part of a line stands for.

use crate::line::LineFault;
use crate::names::Names;
use pm_value_text::parse_hex;
use serde_json::Value;
use std::alloc::Global;

/// What a text that isn't a name stands for.
#[derive(Clone, Copy)]
pub enum Form {
    /// its own bytes
    Text,
    /// the bytes of its hexadecimal digits; behind a `'`, those of the text
    Digits,
}

/// Appends what a part stands for: a text; an object or a row line, as compact JSON; or a list of texts.
pub fn push_part(
    alloc: Global,
    names: &Names,
    form: Form,
    bytes: &mut Vec<u8>,
    part: &Value,
) -> Result<(), LineFault> {
    match (part.as_str(), part.as_array()) {
        (Some(text), _) => push_text(alloc, names, form, bytes, text),
        (_, Some(items)) if !is_row(items.as_slice()) => {
            push_list(alloc, names, form, bytes, items.as_slice())
        }
        _ => push_json(alloc, bytes, part),
    }
}

/// Whether items are those of a row line: the first is a row's kind.
fn is_row(items: &[Value]) -> bool {
    match items {
        [kind, ..] => match kind.as_str() {
            Some(text) => matches!(text, "+I" | "-U" | "+U" | "-D"),
            None => false,
        },
        [] => false,
    }
}

/// Appends the compact JSON of an object or an array.
fn push_json(alloc: Global, bytes: &mut Vec<u8>, json: &Value) -> Result<(), LineFault> {
    if !json.is_object() && !json.is_array() {
        return Err(LineFault::Unknown);
    }
    let text = json.to_vec(alloc)?;
    Ok(bytes.extend_from_slice(text.as_slice())?)
}

/// Appends what a text stands for.
fn push_text(
    alloc: Global,
    names: &Names,
    form: Form,
    bytes: &mut Vec<u8>,
    text: &str,
) -> Result<(), LineFault> {
    if let Some(named) = names.find(text) {
        return Ok(bytes.extend_from_slice(named)?);
    }
    match form {
        Form::Text => Ok(bytes.extend_from_slice(text.as_bytes())?),
        Form::Digits => push_digits(alloc, bytes, text),
    }
}

/// Appends the bytes of hexadecimal digits; or those of a text, behind a `'`.
fn push_digits(alloc: Global, bytes: &mut Vec<u8>, text: &str) -> Result<(), LineFault> {
    match text.strip_prefix("'") {
        Some(plain) => Ok(bytes.extend_from_slice(plain.as_bytes())?),
        None => {
            let parsed = read_digits(alloc, text)?;
            Ok(bytes.extend_from_slice(parsed.as_slice())?)
        }
    }
}

/// The bytes of hexadecimal digits.
pub fn read_digits(alloc: Global, digits: &str) -> Result<Vec<u8>, LineFault> {
    match parse_hex(alloc, digits)? {
        Some(bytes) => Ok(bytes),
        None => Err(LineFault::Unknown),
    }
}

/// Appends texts, each once, or as often as the number behind it says, or once for each number of the range behind it.
fn push_list(
    alloc: Global,
    names: &Names,
    form: Form,
    bytes: &mut Vec<u8>,
    items: &[Value],
) -> Result<(), LineFault> {
    let mut last: Option<&str> = None;
    for item in items {
        match (item.as_str(), last) {
            (Some(text), Some(before)) => {
                push_text(alloc, names, form, bytes, before)?;
                last = Some(text);
            }
            (Some(text), None) => last = Some(text),
            (None, Some(text)) => {
                push_times(alloc, names, form, bytes, text, item)?;
                last = None;
            }
            (None, None) => return Err(LineFault::Unknown),
        }
    }
    match last {
        Some(text) => push_text(alloc, names, form, bytes, text),
        None => Ok(()),
    }
}

/// Appends what a text stands for, as many times as a number says; or the text once for each number of a range.
fn push_times(
    alloc: Global,
    names: &Names,
    form: Form,
    bytes: &mut Vec<u8>,
    text: &str,
    times: &Value,
) -> Result<(), LineFault> {
    if let Some(range) = times.as_array() {
        return push_range(alloc, bytes, plain_text(form, text)?, range.as_slice());
    }
    let mut once = Vec::new(alloc);
    push_text(alloc, names, form, &mut once, text)?;
    for _ in 0..times.as_u64().ok_or(LineFault::Unknown)? {
        bytes.extend_from_slice(once.as_slice())?;
    }
    Ok(())
}

/// The text that isn't digits: among digits it stands behind a `'`.
fn plain_text(form: Form, text: &str) -> Result<&str, LineFault> {
    match form {
        Form::Text => Ok(text),
        Form::Digits => text.strip_prefix("'").ok_or(LineFault::Unknown),
    }
}

/// Appends a text for each number of a range, which falls where its first end is the greater one.
fn push_range(
    alloc: Global,
    bytes: &mut Vec<u8>,
    text: &str,
    range: &[Value],
) -> Result<(), LineFault> {
    let [from, to] = range else {
        return Err(LineFault::Unknown);
    };
    let from = from.as_u64().ok_or(LineFault::Unknown)?;
    let to = to.as_u64().ok_or(LineFault::Unknown)?;
    if from <= to {
        push_rising(alloc, bytes, text, from, to)
    } else {
        push_falling(alloc, bytes, text, to, from)
    }
}

/// Appends a text for each number from one to below another.
fn push_rising(
    alloc: Global,
    bytes: &mut Vec<u8>,
    text: &str,
    least: u64,
    above: u64,
) -> Result<(), LineFault> {
    for number in least..above {
        push_numbered(alloc, bytes, text, number)?;
    }
    Ok(())
}

/// Appends a text for each number from below one down to another.
fn push_falling(
    alloc: Global,
    bytes: &mut Vec<u8>,
    text: &str,
    least: u64,
    above: u64,
) -> Result<(), LineFault> {
    for number in (least..above).rev() {
        push_numbered(alloc, bytes, text, number)?;
    }
    Ok(())
}

/// Appends a text with a number in the place of each `#`.
fn push_numbered(
    alloc: Global,
    bytes: &mut Vec<u8>,
    text: &str,
    number: u64,
) -> Result<(), LineFault> {
    let digits = format!(in alloc; "{number}")?;
    for byte in text.as_bytes() {
        if *byte == b'#' {
            bytes.extend_from_slice(digits.as_bytes())?;
        } else {
            bytes.push(*byte)?;
        }
    }
    Ok(())
}
