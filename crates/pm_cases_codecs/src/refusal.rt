//! Refusals: their statuses and their lines.

use pm_cases::{Case, ROOM, print_within};
use pm_values::{Blob, Refusal, Txt, Why};
use std::alloc::{AllocError, Global};

/// The status of a refusal, and as much of its line as a sink with this room takes.
pub fn short_answer(case: &mut Case, arguments: &str) {
    let (room, refusal) = case.split(arguments);
    let room = case.size(room);
    answer_within(case, room, refusal);
}

/// The status of a refusal, and its line.
pub fn answer(case: &mut Case, arguments: &str) {
    answer_within(case, ROOM, arguments);
}

/// The status of a refusal, and its line in a sink with this room.
fn answer_within(case: &mut Case, room: usize, arguments: &str) {
    let (kind, parts) = arguments.split_once('\t').unwrap_or((arguments, ""));
    let (first, more) = parts.split_once('\t').unwrap_or((parts, ""));
    let (second, third) = more.split_once('\t').unwrap_or((more, ""));
    let refusal = match kind {
        "line" | "retraction" => read_bad_line(case.alloc(), kind, first, second, third),
        _ => read_refusal(case.alloc(), kind, first, second),
    };
    match refusal {
        Ok(Some(refusal)) => say_within(case, room, refusal),
        Ok(None) => case.reject(),
        Err(_) => case.run_out(),
    }
}

/// Says a refusal as a sink with this room takes it.
fn say_within(case: &mut Case, room: usize, refusal: Refusal) {
    case.say_made(print_within(case.alloc(), room, &refusal));
    drop(refusal);
}

/// A refusal of that kind with these parts, but for those of a line.
fn read_refusal(
    alloc: Global,
    kind: &str,
    first: &str,
    second: &str,
) -> Result<Option<Refusal>, AllocError> {
    match kind {
        "words" | "store" | "damaged" | "taken" | "session used" | "limit" => {
            let text = Txt::from_str(alloc, first)?;
            Ok(Some(of_text(kind, text, second.parse::<u64>().unwrap_or(0))))
        }
        "unsupported" => {
            let what = Txt::from_str(alloc, first)?;
            unsupported(alloc, what, second)
        }
        "moved" => {
            let found = Some(Blob::from_slice(alloc, first.as_bytes())?);
            Ok(Some(Refusal::ConsumerMoved { found }))
        }
        _ => Ok(of_numbers(kind, first, second)),
    }
}

/// A refusal of a text and a number.
fn of_text(kind: &str, text: Txt, number: u64) -> Refusal {
    match kind {
        "words" => Refusal::Words { command: text },
        "store" => Refusal::StoreFault { path: text },
        "damaged" => Refusal::Damaged {
            path: text,
            place: number,
        },
        "taken" => Refusal::CompactTaken { file: text },
        "session used" => Refusal::SessionUsed { path: text },
        _ => Refusal::Limit {
            which: text,
            number,
        },
    }
}

/// The refusal of a text that isn't supported.
fn unsupported(alloc: Global, what: Txt, text: &str) -> Result<Option<Refusal>, AllocError> {
    match Txt::from_str(alloc, text) {
        Ok(text) => Ok(Some(Refusal::Unsupported { what, text })),
        Err(error) => {
            drop(what);
            Err(error)
        }
    }
}

/// A refusal without a text.
fn of_numbers(kind: &str, first: &str, second: &str) -> Option<Refusal> {
    let number = first.parse::<u64>().unwrap_or(0);
    let other = second.parse::<u64>().unwrap_or(0);
    let refusal = match kind {
        "memory" => Refusal::Memory,
        "source" => Refusal::SourceFault,
        "sink" => Refusal::SinkFault {
            snapshot: first.parse::<u64>().ok(),
        },
        "table exists" => Refusal::TableExists,
        "no table" => Refusal::NoTable,
        "no snapshot" => Refusal::NoSnapshot {
            id: number,
            latest: other,
        },
        "expired" => Refusal::Expired { id: number },
        "contended" => Refusal::Contended {
            ids: [1, 2, 3, 4, 5, 6, 7, 8, 9, 10, number],
        },
        "fenced" => Refusal::Fenced {
            base: number,
            fence: second.parse::<i64>().unwrap_or(0),
        },
        "below floor" => Refusal::BelowFloor {
            next: number,
            floor: other,
        },
        "gone" => Refusal::ConsumerMoved { found: None },
        "no changelog" => Refusal::NoChangelog,
        "rule" => Refusal::SchemaRule {
            rule: first.parse::<u32>().unwrap_or(0),
        },
        _ => return None,
    };
    Some(refusal)
}

/// A refusal of a line: its number, what is wrong with it, and the column.
fn read_bad_line(
    alloc: Global,
    kind: &str,
    line: &str,
    why: &str,
    column: &str,
) -> Result<Option<Refusal>, AllocError> {
    let (Ok(line), Some(why)) = (line.parse::<u64>(), read_why(why)) else {
        return Ok(None);
    };
    let column = Txt::from_str(alloc, column)?;
    Ok(Some(if kind == "line" {
        Refusal::BadLine { line, why, column }
    } else {
        Refusal::Retraction { line, column }
    }))
}

/// What is wrong with a line.
fn read_why(why: &str) -> Option<Why> {
    match why {
        "json" => Some(Why::Json),
        "array" => Some(Why::Array),
        "kind" => Some(Why::Kind),
        "count" => Some(Why::Count),
        "null" => Some(Why::Null),
        "type" => Some(Why::Type),
        "range" => Some(Why::Range),
        "draft" => Some(Why::Draft),
        "script" => Some(Why::Script),
        _ => None,
    }
}
