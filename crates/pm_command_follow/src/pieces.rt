//! The pieces of what `follow` prints, each read and then printed.

ghost use Rattle.std.specs.Prelude.{◌≡◌, ◌++◌, ◌≤◌, IfErr, IfOk};
ghost use Rattle.std.specs.Result.{result_err};
ghost use Rattle.pm_io.specs.Sink.{SinkLater};
ghost use Rattle.pm_machine.specs.Trace.{HasTrace};
ghost use Rattle.pm_scan.specs.AllCalls.{Ends, text_in};
ghost use Rattle.pm_scan.specs.Asked.{passed_at};
ghost use Rattle.pm_schema.specs.Again.{IsDeclared};
ghost use Rattle.pm_snapshot.specs.Names.{greatest};
ghost use Rattle.pm_store.specs.Store.{IsLater};
ghost use Rattle.pm_model_history.specs.History.{IsTableOf};
ghost use Rattle.pm_read_schema.specs.Beside.{Learns};
ghost use Rattle.pm_scan.specs.Beside.{TellsBeside};
ghost use Rattle.pm_scan.specs.Meaning.{IsPassed};
ghost use Rattle.pm_command_follow.specs.Follow.{DidTable};
ghost use Rattle.pm_command_follow.specs.Pieces.{FramesBeside, LearnsFrame, LearnsStart, PieceBeside};
ghost use Rattle.pm_command_follow.specs.Pieces.{PrintsFrame, PrintsFrames, PrintsStart, RefusesFrame};
ghost use Rattle.pm_command_follow.specs.Printed.{table_head};

use itoa::Buffer;
use pm_command::print;
use pm_engines::declared_law;
use pm_io::Sink;
use pm_read_frame::{frames_law, read_frame};
use pm_scan::scan_passed;
use pm_schema::TableSchema;
use pm_store::FileStore;
use pm_values::Refusal;
use std::alloc::{AllocError, Global};

/// Prints the starting table, the one that is passed on at one below the start.
pub fn print_table<W: Sink, F: FileStore>(
    alloc: Global,
    schema: &TableSchema,
    start: u64,
    out: &mut W,
    store: &mut F,
) -> Result<(), Refusal>
    requires declared { IsDeclared schema.now }
    requires start { 1 ≤ start }
    ensures prints { PrintsStart schema.now start (W.seen out.old) (W.seen out.new) (F.seen store.old)
        (F.seen store.new) (result_err result) }
    ensures beside { PieceBeside (LearnsStart schema.now start) (TellsBeside schema.now) (W.seen out.old)
        (W.seen out.new) (F.seen store.old) (F.seen store.new) (result_err result) }
    ensures out_later { SinkLater (W.seen out.old) (W.seen out.new) }
    ensures store_later { IsLater (F.seen store.old) (F.seen store.new) }
{
    let text = read_table(alloc, schema, start, store)?;
    print(out, &text, None)
}

/// The text of the starting table.
fn read_table<F: FileStore>(
    alloc: Global,
    schema: &TableSchema,
    start: u64,
    store: &mut F,
) -> Result<Vec<u8>, Refusal>
    requires declared { IsDeclared schema.now }
    requires start { 1 ≤ start }
    ensures trace { HasTrace (DidTable schema.now start (text_in result)) (F.seen store.old) (F.seen store.new) }
    ensures beside { IfOk result (λ text. LearnsStart schema.now start text.items (F.seen store.old)
        (F.seen store.new)) }
    ensures refused { IfErr result (λ e. TellsBeside schema.now e (F.seen store.old) (F.seen store.new)) }
    ensures later { IsLater (F.seen store.old) (F.seen store.new) }
{
    let below = start - 1;
    let rows = read_passed(alloc, schema, below, store)?;
    match with_head(rows, below) {
        Ok(text) => Ok(text),
        Err(_) => Err(Refusal::Memory),
    }
}

/// The rows of the table that is passed on at this snapshot.
fn read_passed<F: FileStore>(
    alloc: Global,
    schema: &TableSchema,
    id: u64,
    store: &mut F,
) -> Result<Vec<u8>, Refusal>
    requires declared { IsDeclared schema.now }
    ensures trace { HasTrace (Ends (passed_at schema.now id) (text_in result)) (F.seen store.old)
        (F.seen store.new) }
    ensures beside { IfOk result (λ text. Learns (λ f p. IsTableOf schema.now p.history)
        (λ f p. IsPassed p id text.items) (F.seen store.old) (F.seen store.new)) }
    ensures refused { IfErr result (λ e. TellsBeside schema.now e (F.seen store.old) (F.seen store.new)) }
    ensures later { IsLater (F.seen store.old) (F.seen store.new) }
{
    declared_law();
    match schema.copy(alloc) {
        Ok(schema) => scan_passed(alloc, schema, id, store),
        Err(_) => Err(Refusal::Memory),
    }
}

/// The rows, with the line before them that names the snapshot. They are moved in their place, and copied nowhere.
fn with_head(rows: Vec<u8>, id: u64) -> Result<Vec<u8>, AllocError>
    ensures { IfOk result (λ text. text.items ≡ table_head id ++ rows.items) }
{
    let mut text = rows;
    let count = text.len();
    let mut buffer = Buffer::new();
    let number = buffer.format(id);
    text.extend_from_slice(b"{\"table\":")?;
    text.extend_from_slice(number.as_bytes())?;
    text.extend_from_slice(b"}\n")?;
    let head = text.len() - count;
    text.as_mut_slice().rotate_right(head);
    Ok(text)
}

/// Prints the frames from one snapshot to another, none where the first is above it.
pub(crate) fn print_frames<W: Sink, F: FileStore>(
    alloc: Global,
    schema: &TableSchema,
    start: u64,
    latest: u64,
    out: &mut W,
    store: &mut F,
) -> Result<(), Refusal>
    requires declared { IsDeclared schema.now }
    requires start { 1 ≤ start }
    requires latest { latest ≤ greatest }
    ensures prints { PrintsFrames schema.now start latest (W.seen out.old) (W.seen out.new) (F.seen store.old)
        (F.seen store.new) (result_err result) }
    ensures beside { FramesBeside schema.now start latest (W.seen out.old) (W.seen out.new) (F.seen store.old)
        (F.seen store.new) (result_err result) }
    ensures out_later { SinkLater (W.seen out.old) (W.seen out.new) }
    ensures store_later { IsLater (F.seen store.old) (F.seen store.new) }
{
    frames_law();
    let mut id = start;
    while id <= latest {
        print_frame(alloc, schema, id, out, store)?;
        id += 1;
    }
    Ok(())
}

/// Prints the frame of a snapshot.
pub fn print_frame<W: Sink, F: FileStore>(
    alloc: Global,
    schema: &TableSchema,
    id: u64,
    out: &mut W,
    store: &mut F,
) -> Result<(), Refusal>
    requires declared { IsDeclared schema.now }
    requires after_origin { 1 ≤ id }
    ensures prints { PrintsFrame schema.now id (W.seen out.old) (W.seen out.new) (F.seen store.old) (F.seen store.new)
        (result_err result) }
    ensures beside { PieceBeside (LearnsFrame schema.now id) (RefusesFrame schema.now id) (W.seen out.old)
        (W.seen out.new) (F.seen store.old) (F.seen store.new) (result_err result) }
    ensures out_later { SinkLater (W.seen out.old) (W.seen out.new) }
    ensures store_later { IsLater (F.seen store.old) (F.seen store.new) }
{
    let text = read_frame(alloc, schema, id, store)?;
    print(out, &text, None)
}
