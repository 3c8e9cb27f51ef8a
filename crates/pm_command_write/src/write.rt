//! The command `write`: append the rows of the input to the table as one commit.

ghost use Rattle.std.specs.Prelude.{◌≡◌, ◌≢◌, ◌≤◌, ℕ, List, [], length, IfOk, OnOk, None, Some, Ok};
ghost use Rattle.std.specs.Result.{result_err};
ghost use Rattle.pm_commit.specs.Own.{group_limit};
ghost use Rattle.pm_commit.specs.declared.phase.Phase.TheVariants as phases;
ghost use Rattle.pm_model_history.specs.Merge.{HistoryRow};
ghost use Rattle.pm_io.specs.Sink.{SinkLater};
ghost use Rattle.pm_machine.specs.Trace.{HasTrace};
ghost use Rattle.pm_schema.specs.Again.{IsDeclared};
ghost use Rattle.pm_snapshot.specs.Names.{MayName};
ghost use Rattle.pm_store.specs.Store.{IsLater};
ghost use Rattle.pm_values.specs.Names.{naming};
ghost use Rattle.pm_write.specs.Batch.{IsBatchOf, ReadsBatch};
ghost use Rattle.pm_write.specs.Taken.{all_taken};
ghost use Rattle.pm_command.specs.Outside.{actor, outside, AllLater, Prints};
ghost use Rattle.pm_command_write.specs.Write.{AnswersWrite, ActsWrite, WritesTables};
ghost use Rattle.pm_command_write.specs.Write.{commit_of, identifier_of, user_of, DidWrite, IsWritten, KeepsHistories};
ghost use Rattle.pm_command_write.specs.Write.{snapshot_of, text_of};

use crate::input::read_input;
use crate::writer::Writer;
use pm_base::Txt;
use pm_command::{Start, own_names, own_user, print, print_snapshot};
use pm_commit::{Appended, Committer, append_rows, new_committer};
use pm_engines::{TableEngine, declared_law};
use pm_input::InputLines;
use pm_io::{Sink, Source};
use pm_read_schema::read_table_schema;
use pm_rows::fit_law;
use pm_schema::TableSchema;
use pm_store::FileStore;
use pm_values::Refusal;
use pm_write::{Batch, batch_law};
use std::alloc::{AllocError, Global};

/// The greatest identifier of a commit.
const GREATEST_IDENTIFIER: u64 = 9223372036854775807;

/// What became of the rows of an input: there were none, the user had committed them before, or the snapshot with that
/// id was committed.
#[derive(Clone, Copy)]
pub enum Written {
    Nothing,
    Already,
    Committed(u64),
}

/// Appends the rows of the input to the table as one commit, and says what became of them. Where no user is asked for
/// it is the actor, and where no identifier is, the greatest.
pub fn run_write<S: Source, W: Sink, F: FileStore>(
    alloc: Global,
    writer: Writer,
    input: &mut S,
    out: &mut W,
    store: &mut F,
    start: &Start,
) -> Result<(), Refusal>
    ensures command { (bytes : List ℕ) → (S.seen input.old).left ≡ Some bytes
        → AnswersWrite start.now writer bytes
        (outside (S.seen input.old) (W.seen out.old) (F.seen store.old))
        (outside (S.seen input.new) (W.seen out.new) (F.seen store.new)) (result_err result) }
    ensures acts { ActsWrite start.now writer
        (outside (S.seen input.old) (W.seen out.old) (F.seen store.old))
        (outside (S.seen input.new) (W.seen out.new) (F.seen store.new)) (result_err result) }
    ensures history { WritesTables start.now writer
        (outside (S.seen input.old) (W.seen out.old) (F.seen store.old))
        (outside (S.seen input.new) (W.seen out.new) (F.seen store.new)) (result_err result) }
    ensures later { AllLater (outside (S.seen input.old) (W.seen out.old) (F.seen store.old))
        (outside (S.seen input.new) (W.seen out.new) (F.seen store.new)) }
{
    let lines = read_input(alloc, input)?;
    write_lines(alloc, writer, lines, out, store, start)
}

/// Appends the rows of lines, and says what became of them.
fn write_lines<W: Sink, F: FileStore>(
    alloc: Global,
    writer: Writer,
    lines: InputLines,
    out: &mut W,
    store: &mut F,
    start: &Start,
) -> Result<(), Refusal>
    ensures written { IsWritten start.now writer lines (W.seen out.old) (W.seen out.new)
        (F.seen store.old) (F.seen store.new) (result_err result) }
    ensures out_later { SinkLater (W.seen out.old) (W.seen out.new) }
    ensures store_later { IsLater (F.seen store.old) (F.seen store.new) }
{
    let written = append_lines(alloc, writer, lines, store, start)?;
    print_written(out, written)
}

/// Appends the rows that a table takes of lines, once its schema was read.
fn append_lines<F: FileStore>(
    alloc: Global,
    writer: Writer,
    lines: InputLines,
    store: &mut F,
    start: &Start,
) -> Result<Written, Refusal>
    ensures trace { HasTrace (DidWrite start.now writer lines result) (F.seen store.old) (F.seen store.new) }
    ensures history { KeepsHistories start.now writer lines (F.seen store.old) (F.seen store.new) result }
    ensures later { IsLater (F.seen store.old) (F.seen store.new) }
{
    batch_law();
    fit_law();
    let schema = read_table_schema(alloc, store)?;
    let batch = read_batch(alloc, &schema, lines)?;
    if batch.is_empty() {
        return Ok(Written::Nothing);
    }
    let committer = committer_of(alloc, schema, batch, writer, start)?;
    match append_rows(alloc, committer, store) {
        Ok(Appended::Committed(id)) => Ok(Written::Committed(id)),
        Ok(Appended::Already) => Ok(Written::Already),
        Err(refusal) => Err(refusal),
    }
}

/// The batch of the rows that a table takes of lines, or the first refusal.
fn read_batch(alloc: Global, schema: &TableSchema, lines: InputLines) -> Result<Batch, Refusal>
    requires declared { IsDeclared schema.now }
    ensures { ReadsBatch schema.now result (all_taken schema.now lines) }
{
    declared_law();
    let engine = TableEngine::of_schema(alloc, schema)?;
    Batch::read(alloc, schema, &engine, lines)
}

/// The committer of a batch that isn't empty.
fn committer_of(
    alloc: Global,
    schema: TableSchema,
    batch: Batch,
    writer: Writer,
    start: &Start,
) -> Result<Committer, AllocError>
    requires declared { IsDeclared schema }
    requires read { (rows : List HistoryRow) × IsBatchOf schema rows batch }
    requires some { batch ≢ [] }
    requires few { length batch ≤ group_limit }
    ensures committer { IfOk result (λ committer. committer ≡ phases.Names
        (commit_of start.now writer batch) schema) }
    ensures may { OnOk result (MayName (naming start.now.session start.now.number 0)) }
{
    let Writer { user, identifier } = writer;
    let check = user.is_some();
    let user = user_of(alloc, start, user)?;
    let identifier = identifier_of(identifier);
    let names = own_names(start);
    Ok(new_committer(
        schema,
        batch,
        user,
        identifier,
        check,
        names,
        start.now_millis,
    ))
}

/// The user that is asked for, or the actor.
fn user_of(alloc: Global, start: &Start, user: Option<Txt>) -> Result<Txt, AllocError>
    ensures { IfOk result (λ name. name ≡ user_of (actor start.now) user) }
{
    match user {
        Some(user) => Ok(user),
        None => own_user(alloc, start),
    }
}

/// The identifier that is asked for, or the greatest.
fn identifier_of(asked: Option<u64>) -> i64
    ensures { result ≡ identifier_of asked }
{
    match asked {
        Some(n) if n < GREATEST_IDENTIFIER => n as i64,
        _ => GREATEST_IDENTIFIER as i64,
    }
}

/// Says what became of the rows. It takes no memory.
fn print_written<W: Sink>(out: &mut W, written: Written) -> Result<(), Refusal>
    ensures prints { Prints (text_of (Ok written)) (snapshot_of (Ok written)) None (W.seen out.old) (W.seen out.new)
        (result_err result) }
    ensures later { SinkLater (W.seen out.old) (W.seen out.new) }
{
    match written {
        Written::Nothing => print(out, b"nothing to commit\n", None),
        Written::Already => print(out, b"already\n", None),
        Written::Committed(id) => print_snapshot(out, id),
    }
}
