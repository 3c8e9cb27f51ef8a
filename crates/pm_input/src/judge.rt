//! Which limit a line exceeds first.

ghost use Rattle.std.specs.Prelude.{◌≡◌, ◌==◌, ℕ, ◌+◌, ◌-◌, List, [], ◌∷◌, ◌++◌, length, true, not, IfOk, IfErr};
ghost use Rattle.std.specs.Prelude.{if◌then◌else◌};
ghost use Rattle.std.specs.List.{prefix_len};
ghost use Rattle.pm_base.specs.Newline.{newline, IsUnbroken};
ghost use Rattle.pm_input.specs.Blank.{is_blank, is_blank_byte};
ghost use Rattle.pm_input.specs.Judge.{IsRoomAfter, joined, exceeded_from, exceeded_by, first_of};
ghost use Rattle.pm_input.specs.Limits.{IsWithin, IsFirstLimit};

use crate::blank::{blank_len, is_blank};
use crate::limits::{LimitKind, Limits};
use pm_io::Line;

/// The room that some lines leave of the limits.
#[derive(Clone, Copy)]
pub(crate) struct Room {
    pub rows: usize,
    pub bytes: usize,
}

/// A line that exceeds no limit: the room after it, and whether it isn't blank.
#[derive(Clone, Copy)]
pub(crate) struct Judged {
    pub room: Room,
    pub is_row: bool,
}

/// The first limit that the bytes of a line exceed, its newline left out.
pub(crate) fn first_limit(limits: &Limits, room: &Room, line: &[u8]) -> Option<LimitKind>
    ensures { result ≡ exceeded_from limits.now room.now 0 true line.now }
{
    let row = row_offset(room, line);
    first_of(limits.line, row, room.bytes, line.len())
}

/// The offset of the byte that exceeds the limit of rows: the first that isn't blank, where no row
/// is left. Where there is none, the length.
fn row_offset(room: &Room, line: &[u8]) -> usize
    ensures { result ≡ (if room.now.rows == 0 then prefix_len is_blank_byte line.now else length line.now) }
{
    if room.rows == 0 {
        blank_len(line)
    } else {
        line.len()
    }
}

/// The limit of the least of three offsets in a line of that length, in their order at equal ones.
fn first_of(line: usize, row: usize, bytes: usize, len: usize) -> Option<LimitKind>
    ensures { result ≡ first_of line row bytes len }
{
    if line <= row && line <= bytes && line < len {
        Some(LimitKind::Line)
    } else if row <= bytes && row < len {
        Some(LimitKind::BatchRows)
    } else if bytes < len {
        Some(LimitKind::BatchBytes)
    } else {
        None
    }
}

/// The first limit that a line exceeds, with its newline where that ends it.
fn exceeded_by(limits: &Limits, room: &Room, line: &Line) -> Option<LimitKind>
    ensures { result ≡ exceeded_by limits.now room.now line.now.bytes.items line.now.ended }
{
    if let Some(which) = first_limit(limits, room, &line.bytes) {
        return Some(which);
    }
    if line.ended && room.bytes <= line.bytes.len() {
        return Some(LimitKind::BatchBytes);
    }
    None
}

/// The room after a line and its newline, and whether the line isn't blank.
fn room_after(room: &Room, line: &[u8]) -> Judged
    ensures rows { result.room.rows ≡ (if is_blank line.now then room.now.rows else room.now.rows - 1) }
    ensures bytes { result.room.bytes ≡ room.now.bytes - (length line.now + 1) }
    ensures row { result.is_row ≡ not (is_blank line.now) }
{
    let is_row = !is_blank(line);
    let rows = if is_row {
        room.rows.saturating_sub(1)
    } else {
        room.rows
    };
    let bytes = room.bytes.saturating_sub(line.len()).saturating_sub(1);
    Judged {
        room: Room { rows, bytes },
        is_row,
    }
}

/// The room after a line, or the first limit that it exceeds.
pub(crate) fn judge_line(limits: &Limits, room: &Room, line: &Line) -> Result<Judged, LimitKind>
    requires { IsUnbroken line.now.bytes.items }
    ensures within { IfOk result (λ _. (lines : List (List ℕ))
        → IsRoomAfter limits.now room.now lines → IsWithin limits.now (joined lines)
        → IsWithin limits.now ((joined lines ++ line.now.bytes.items)
        ++ (if line.now.ended then newline ∷ [] else []))) }
    ensures room { IfOk result (λ judged. (lines : List (List ℕ))
        → IsRoomAfter limits.now room.now lines → line.now.ended ≡ true
        → IsRoomAfter limits.now judged.room (lines ++ line.now.bytes.items ∷ [])) }
    ensures row { IfOk result (λ judged. judged.is_row ≡ not (is_blank line.now.bytes.items)) }
    ensures first { IfErr result (λ which. (lines : List (List ℕ)) (rest : List ℕ)
        → IsRoomAfter limits.now room.now lines → IsWithin limits.now (joined lines)
        → IsFirstLimit limits.now which ((joined lines ++ line.now.bytes.items)
        ++ (if line.now.ended then newline ∷ rest else []))) }
{
    match exceeded_by(limits, room, line) {
        Some(which) => Err(which),
        None => Ok(room_after(room, &line.bytes)),
    }
}
