//! The lines of a command's input.

ghost use Rattle.std.specs.Prelude.{◌≡◌, ℕ, List, [], ◌∷◌, ◌++◌, Ok, None, IfOk, IfErr, IfSome, IsErrOf, OnOk};
ghost use Rattle.std.specs.Prelude.{if◌then◌else◌};
ghost use Rattle.pm_base.specs.Newline.{IsUnbroken};
ghost use Rattle.pm_io.specs.Lines.{IsLineOf, to_come};
ghost use Rattle.pm_io.specs.Source.{SourceFailed, SourceLater};
ghost use Rattle.pm_input.specs.Judge.{IsRoomAfter, joined};
ghost use Rattle.pm_input.specs.Limits.{IsWithin};
ghost use Rattle.pm_input.specs.Lines.{IsRead, IsRefused, fault_of};
ghost use Rattle.pm_input.specs.declared.lines.InputFault.TheVariants.{Memory};

use crate::judge::{Room, first_limit, judge_line};
use crate::kept::InputLines;
use crate::limits::{LimitKind, Limits};
use pm_io::{Line, LineFault, Lines, Source};
use std::alloc::{AllocError, AllocFailed, Global};

/// Why an input wasn't read.
#[derive(Clone, Copy)]
pub enum InputFault {
    /// There was no memory left.
    Memory,
    /// The source failed, after bytes that are within the limits.
    Read,
    /// The first limit that is exceeded.
    Limit(LimitKind),
}

impl From<AllocError> for InputFault {
    ghost from_gives = { λ _ e. e ≡ Memory };

    fn from(_e: AllocError) -> InputFault {
        InputFault::Memory
    }
}

impl<T: Drop> From<AllocFailed<T>> for InputFault {
    ghost from_gives = { λ _ e. e ≡ Memory };

    fn from(_e: AllocFailed<T>) -> InputFault {
        InputFault::Memory
    }
}

/// The lines of a source up to its end that aren't blank.
pub fn read_lines<S: Source>(
    alloc: Global,
    source: &mut S,
    limits: &Limits,
) -> Result<InputLines, InputFault>
    ensures read { IfOk result (λ lines. IfSome (S.seen source.old).left (λ bytes.
        IsRead limits.now lines bytes (S.seen source.new).left)) }
    ensures refused { IfErr result (λ fault. IfSome (S.seen source.old).left (λ bytes.
        IsRefused limits.now fault bytes (S.seen source.new).left)) }
    ensures failed { IsErrOf result InputFault.Read → SourceFailed (S.seen source.old) (S.seen source.new) }
    ensures later { SourceLater (S.seen source.old) (S.seen source.new) }
{
    let mut held = Lines::new(alloc);
    let mut lines = InputLines::new(alloc);
    let mut room = Room {
        rows: limits.rows,
        bytes: limits.bytes,
    };
    for number in 1..u64::MAX {
        let line = match next_line(&mut held, source, limits, &room) {
            Ok(Some(line)) => line,
            Ok(None) => return Ok(lines),
            Err(fault) => return Err(fault),
        };
        let judged = match judge_line(limits, &room, &line) {
            Ok(judged) => judged,
            Err(which) => return Err(InputFault::Limit(which)),
        };
        let Line { bytes, ended } = line;
        keep(&mut lines, number, bytes, judged.is_row)?;
        if !ended {
            return Ok(lines);
        }
        room = judged.room;
    }
    Err(InputFault::Memory)
}

/// Adds a line with its number, where it isn't blank.
fn keep(lines: &mut InputLines, number: u64, bytes: Vec<u8>, is_row: bool) -> Result<(), AllocError>
    ensures { OnOk result (lines.new ≡ lines.old ++ (if is_row then (number, bytes.items) ∷ [] else [])) }
{
    if is_row {
        lines.push(number, &bytes)?;
    }
    Ok(())
}

/// The next line, or why there is none: the first limit that it exceeds as far as it was read, or
/// the read that failed.
fn next_line<S: Source>(
    held: &mut Lines,
    source: &mut S,
    limits: &Limits,
    room: &Room,
) -> Result<Option<Line>, InputFault>
    ensures line { IfOk result (λ found. IfSome found (λ line.
        IfSome (to_come held.old (S.seen source.old))
        (IsLineOf line.bytes.items line.ended (to_come held.new (S.seen source.new))))) }
    ensures unbroken { IfOk result (λ found. IfSome found (λ line. IsUnbroken line.bytes.items)) }
    ensures end { result ≡ Ok None →
        IfSome (to_come held.old (S.seen source.old)) (λ bytes. bytes ≡ []) }
    ensures ended { result ≡ Ok None →
        to_come held.new (S.seen source.new) ≡ to_come held.old (S.seen source.old) }
    ensures refused { IfErr result (λ fault. (lines : List (List ℕ))
        → IsRoomAfter limits.now room.now lines → IsWithin limits.now (joined lines)
        → IfSome (to_come held.old (S.seen source.old))
        (λ bytes. IsRefused limits.now fault (joined lines ++ bytes) (S.seen source.new).left)) }
    ensures failed { IsErrOf result InputFault.Read → SourceFailed (S.seen source.old) (S.seen source.new) }
    ensures later { SourceLater (S.seen source.old) (S.seen source.new) }
{
    match held.read_line(source, limits.line) {
        Ok(line) => Ok(line),
        Err(fault) => {
            let limit = first_limit(limits, room, held.begun());
            let fault = fault_of(fault, limit);
            Err(fault)
        }
    }
}

/// The fault of a line that wasn't read, by the limit that it exceeds as far as it was read.
fn fault_of(fault: LineFault, limit: Option<LimitKind>) -> InputFault
    ensures { result ≡ fault_of fault limit }
{
    match fault {
        LineFault::Memory => InputFault::Memory,
        LineFault::Read => limit.map_or(InputFault::Read, InputFault::Limit),
        LineFault::Long => limit.map_or(InputFault::Limit(LimitKind::Line), InputFault::Limit),
    }
}
