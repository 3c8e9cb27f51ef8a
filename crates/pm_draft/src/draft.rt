//! The draft that the lines of an input are.

ghost use Rattle.std.specs.Prelude.{◌≡◌, Result};
ghost use Rattle.pm_options.specs.Faults.{Answers, judged};
ghost use Rattle.pm_schema.specs.declared.schema.TableSchema.{TableSchema};
ghost use Rattle.pm_values.specs.declared.refusal.Refusal.{Refusal};
ghost use Rattle.pm_draft.specs.Draft.{comes_first, draft_in, draft_line, later_fault, later_line, unless_later};

use pm_input::InputLines;
use pm_schema::TableSchema;
use pm_schema_file::read_draft;
use pm_values::{Refusal, Txt, Why};
use std::alloc::Global;

/// The schema that the lines are a draft of.
#[tactic(auto, unfolding(crate::specs::Draft::draft_in))]
pub(crate) fn read_draft_lines(
    alloc: Global,
    lines: &InputLines,
    origin: Txt,
    now_millis: i64,
) -> Result<TableSchema, Refusal>
    ensures exact { Answers (λ s. s) result (draft_in lines.now origin now_millis) }
{
    let reading = read_draft(alloc, draft_line(lines), origin, now_millis);
    unless_later(alloc, later_line(lines), reading)
}

/// The draft of the lines, or nothing.
fn draft_line(lines: &InputLines) -> &[u8]
    ensures { result.now ≡ draft_line lines.now }
{
    let mut left = lines.left();
    match left.next() {
        Some(line) if line.number == 1 => line.bytes,
        _ => &[],
    }
}

/// The number of the first line after line 1.
fn later_line(lines: &InputLines) -> Option<u64>
    ensures { result ≡ later_line lines.now }
{
    let mut left = lines.left();
    while let Some(line) = left.next() {
        if line.number != 1 {
            return Some(line.number);
        }
    }
    None
}

/// What a draft was read as, unless a later line is refused before.
fn unless_later(
    alloc: Global,
    later: Option<u64>,
    reading: Result<TableSchema, Refusal>,
) -> Result<TableSchema, Refusal>
    ensures { (defined : Result TableSchema Refusal) → Answers (λ s. s) reading defined
        → Answers (λ s. s) result (unless_later later defined) }
{
    if comes_first(&reading) {
        return reading;
    }
    match judge_later(alloc, later) {
        Ok(()) => reading,
        Err(refusal) => Err(refusal),
    }
}

/// Whether nothing of an input is refused before.
fn comes_first(reading: &Result<TableSchema, Refusal>) -> bool
    ensures { result ≡ comes_first reading.now }
{
    matches!(reading, Err(Refusal::Memory | Refusal::BadLine { .. }))
}

/// Refuses a line after the draft.
fn judge_later(alloc: Global, later: Option<u64>) -> Result<(), Refusal>
    ensures { Answers (λ u. u) result (judged (later_fault later)) }
{
    match later {
        Some(line) => {
            let column = Txt::from_str(alloc, "")?;
            let why = Why::Draft;
            Err(Refusal::BadLine { line, why, column })
        }
        None => Ok(()),
    }
}
