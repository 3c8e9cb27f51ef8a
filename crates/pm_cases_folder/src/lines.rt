//! The lines of an input.

use pm_cases::Case;
use pm_input::{InputFault, InputLines, Limits, read_lines};
use pm_io::MemSource;

/// Limits that a short text exceeds.
const SMALL: Limits = Limits {
    line: 4,
    rows: 2,
    bytes: 12,
};

/// The lines that aren't blank of an input whose read of that number fails, none for 0; or the limit that it exceeds
/// first, or `source failed`.
pub fn lines_answer(case: &mut Case, arguments: &str) {
    let (number, text) = case.split(arguments);
    let number = case.number(number);
    let bytes = case.bytes(text);
    let mut fails = Vec::new(case.alloc());
    case.push(&mut fails, number);
    let mut source = MemSource::new(bytes, fails);
    match read_lines(case.alloc(), &mut source, &SMALL) {
        Ok(lines) => say_input(case, lines),
        Err(InputFault::Memory) => case.run_out(),
        Err(InputFault::Read) => case.say("source failed"),
        Err(InputFault::Limit(kind)) => {
            case.say("limit ");
            case.say(kind.text());
        }
    }
    drop(source);
}

/// Says how many lines there are, and each with its number.
fn say_input(case: &mut Case, lines: InputLines) {
    case.say_made(format!(in case.alloc(); "{} lines", lines.len()));
    let mut left = lines.left();
    for _ in 0..lines.len() {
        if let Some(line) = left.next() {
            case.say_made(format!(in case.alloc(); " {}:", line.number));
            case.say_quoted_bytes(line.bytes);
        }
    }
    drop(lines);
}
