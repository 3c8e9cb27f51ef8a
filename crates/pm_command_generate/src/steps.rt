//! One command of the next actor, and how it ended.

ghost use Rattle.std.specs.Prelude.{◌≡◌, ◌<◌, ◌+◌, ◌^◌, List, [], ◌∷◌, None, IfOk, OnOk, false};
ghost use Rattle.std.specs.Result.{result_err};
ghost use Rattle.pm_store.specs.Store.{IsLater};
ghost use Rattle.pm_words.specs.declared.command.Command.TheVariants as commands;
ghost use Rattle.pm_command_generate.specs.Generate.{draft, taken_in, Asked, Goes, GoesLast};

use crate::inner::{inner_compact, inner_create, inner_scan, inner_write};
use crate::turn::{Turn, finish, numbered};
use pm_command::Start;
use pm_io::MemSink;
use pm_store::FileStore;
use pm_values::Refusal;
use std::alloc::{AllocError, Global};

/// How many bytes a line that says what was made has at most.
const LINE_ROOM: usize = 64;

/// How many bytes the scan's text has at most: a thousand keys, each in a line of fewer than twenty bytes.
const SCAN_ROOM: usize = 1 << 20;

/// Makes the table.
pub(crate) fn create<F: FileStore>(
    alloc: Global,
    turn: &mut Turn,
    store: &mut F,
    start: &Start,
) -> Result<(), Refusal>
    requires few { turn.old.number + 1 < 2 ^ 32 }
    ensures goes { (left : List Asked) → Goes start.now ((commands.Create, draft) ∷ left) left turn.old turn.new
        (F.seen store.old) (F.seen store.new) (result_err result) }
    ensures next { OnOk result (turn.new.number ≡ turn.old.number + 1) }
    ensures later { IsLater (F.seen store.old) (F.seen store.new) }
{
    let text = draft(alloc)?;
    let mut out = MemSink::new(alloc, LINE_ROOM, Vec::new(alloc))?;
    let own = numbered(start, turn.number);
    let ended = inner_create(alloc, text, &mut out, store, &own);
    finish(turn, &out, ended)
}

/// The draft of the table.
fn draft(alloc: Global) -> Result<Vec<u8>, AllocError>
    ensures { IfOk result (λ text. text.items ≡ draft) }
{
    let mut text = Vec::new(alloc);
    text.extend_from_slice(
        br#"{"fields":[{"name":"id","type":"BIGINT NOT NULL"},{"name":"v","type":"BIGINT"}],"#,
    )?;
    text.extend_from_slice(br#""primaryKeys":["id"],"options":{"bucket":"4"}}"#)?;
    Ok(text)
}

/// Commits the rows of these lines.
pub(crate) fn write<F: FileStore>(
    alloc: Global,
    lines: Vec<u8>,
    turn: &mut Turn,
    store: &mut F,
    start: &Start,
) -> Result<(), Refusal>
    requires few { turn.old.number + 1 < 2 ^ 32 }
    ensures goes { (left : List Asked) → Goes start.now ((commands.Write None None, lines.items) ∷ left) left turn.old
        turn.new (F.seen store.old) (F.seen store.new) (result_err result) }
    ensures next { OnOk result (turn.new.number ≡ turn.old.number + 1) }
    ensures later { IsLater (F.seen store.old) (F.seen store.new) }
{
    let mut out = MemSink::new(alloc, LINE_ROOM, Vec::new(alloc))?;
    let own = numbered(start, turn.number);
    let ended = inner_write(alloc, lines, &mut out, store, &own);
    finish(turn, &out, ended)
}

/// Compacts the table.
pub(crate) fn compact<F: FileStore>(
    alloc: Global,
    turn: &mut Turn,
    store: &mut F,
    start: &Start,
) -> Result<(), Refusal>
    requires few { turn.old.number + 1 < 2 ^ 32 }
    ensures goes { (left : List Asked) → Goes start.now ((commands.Compact false, []) ∷ left) left turn.old turn.new
        (F.seen store.old) (F.seen store.new) (result_err result) }
    ensures next { OnOk result (turn.new.number ≡ turn.old.number + 1) }
    ensures later { IsLater (F.seen store.old) (F.seen store.new) }
{
    let mut out = MemSink::new(alloc, LINE_ROOM, Vec::new(alloc))?;
    let own = numbered(start, turn.number);
    let ended = inner_compact(alloc, &mut out, store, &own);
    finish(turn, &out, ended)
}

/// Scans the table: the sink with what was printed.
pub(crate) fn scan<F: FileStore>(
    alloc: Global,
    turn: &mut Turn,
    store: &mut F,
    start: &Start,
) -> Result<MemSink, Refusal>
    requires few { turn.old.number + 1 < 2 ^ 32 }
    ensures goes { GoesLast start.now turn.old turn.new (F.seen store.old) (F.seen store.new) (taken_in result) }
    ensures later { IsLater (F.seen store.old) (F.seen store.new) }
{
    let mut out = MemSink::new(alloc, SCAN_ROOM, Vec::new(alloc))?;
    let own = numbered(start, turn.number);
    let ended = inner_scan(alloc, &mut out, store, &own);
    finish(turn, &out, ended)?;
    Ok(out)
}
