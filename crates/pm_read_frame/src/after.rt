//! What follows the answers to the calls of a reader of a frame.
//!
//! What isn't handed on is dropped by name, as in `pm_read_table`.

ghost use Rattle.std.specs.Prelude.{◌≡◌, ◌⊎◌, ◌<◌, [], ◌++◌, true, None, Some, IfErr, IfOk, IsSomeAnd, OnErr};
ghost use Rattle.pm_merged_log.specs.Merged.{HaveOwnKeys};
ghost use Rattle.pm_read_log.specs.LogReader as logs;
ghost use Rattle.pm_read_table.specs.View.{HaveGroups};
ghost use Rattle.pm_run.specs.Order.{are_in_order};
ghost use Rattle.pm_store.specs.Answers.{MayAnswer};
ghost use Rattle.pm_store.specs.declared.answer.Answer.TheVariants as answers;
ghost use Rattle.pm_read_frame.specs.Reader.{AfterLog, Goes, IsReader, ReadsOn, Shown, Starts};
ghost use Rattle.pm_read_frame.specs.Reading.{reading_of};
ghost use Rattle.pm_read_frame.specs.declared.phase.Phase.TheVariants as phases;

use crate::file::{ChangesFile, files_of, rows_of};
use crate::phase::Phase;
use crate::reading::Reading;
use pm_base::{Blob, Txt};
use pm_machine::Machine;
use pm_merged_log::{empty_frame, frame_text, own_keys_law, pack_rows};
use pm_packed::PackedRows;
use pm_read_log::{Log, LogReader, into_log, is_log_ready};
use pm_run::order_law;
use pm_scan_rows::StoredRun;
use pm_schema::TableSchema;
use pm_store::Answer;
use pm_values::Refusal;
use std::alloc::{AllocError, Global};
use std::collections::VecDeque;

/// The phase after an answer to a call of the changelog's reader.
pub(crate) fn after_answer(
    alloc: Global,
    reader: LogReader,
    answer: Answer,
) -> Result<Phase, Refusal>
    requires may { IsSomeAnd (logs.next_call reader) (λ call. MayAnswer call answer) }
    ensures goes { IfOk result (Goes (phases.Log reader) answer) }
    ensures is_reader { IfOk result IsReader }
    ensures refuses { IfErr result (Shown (phases.Log reader) answer) }
{
    let mut reader = reader;
    match reader.take(alloc, answer) {
        Ok(()) => match after_log(alloc, reader) {
            Ok(phase) => Ok(phase),
            Err(_) => Err(Refusal::Memory),
        },
        Err(refusal) => {
            drop(reader);
            Err(refusal)
        }
    }
}

/// The phase with this reader of the changelog.
fn after_log(alloc: Global, reader: LogReader) -> Result<Phase, AllocError>
    requires left { logs.IsReady reader ⊎ (0 < logs.calls_left reader) }
    ensures goes { IfOk result (AfterLog reader) }
    ensures is_reader { IfOk result IsReader }
    ensures ready { OnErr result (logs.IsReady reader) }
{
    if is_log_ready(&reader) {
        start(alloc, into_log(reader))
    } else {
        Ok(Phase::Log { reader })
    }
}

/// The phase once the changelog is ready.
fn start(alloc: Global, log: Log) -> Result<Phase, AllocError>
    requires { HaveGroups log.schema log.changes.items }
    ensures goes { IfOk result (Starts log) }
    ensures is_reader { IfOk result IsReader }
{
    let Log {
        schema,
        snapshot,
        manifests,
        changes,
    } = log;
    let id = snapshot.id;
    drop(snapshot);
    drop(manifests);
    let files = files_of(alloc, &schema, changes.as_slice());
    drop(changes);
    match files {
        Ok(files) => begin(alloc, schema, id, files),
        Err(error) => {
            drop(schema);
            Err(error)
        }
    }
}

/// The phase in which the first of these files is to be read, or the frame of the snapshot with the id, which has none.
fn begin(
    alloc: Global,
    schema: TableSchema,
    id: u64,
    left: VecDeque<ChangesFile>,
) -> Result<Phase, AllocError>
    ensures goes { IfOk result (ReadsOn schema id [] left.items) }
    ensures is_reader { IfOk result IsReader }
{
    let mut rest = left;
    match rest.pop_front() {
        Some(next) => Ok(Phase::Files {
            reading: Reading {
                schema,
                id,
                rows: PackedRows::new(alloc),
                next,
                rest,
            },
        }),
        None => {
            drop(schema);
            drop(rest);
            let text = empty_frame(alloc, id)?;
            Ok(Phase::Ready { id, text })
        }
    }
}

/// The phase once a file with these rows was read, behind those with the packed ones: the next of the files that are left
/// is to be read, or the frame is made of all rows.
fn read_on(
    alloc: Global,
    schema: TableSchema,
    id: u64,
    rows: PackedRows,
    run: StoredRun,
    left: VecDeque<ChangesFile>,
) -> Result<Phase, AllocError>
    requires own { HaveOwnKeys schema (rows ++ run) }
    requires order { are_in_order true None run ≡ true }
    ensures goes { IfOk result (ReadsOn schema id (rows ++ run) left.items) }
    ensures is_reader { IfOk result IsReader }
{
    let mut rest = left;
    match rest.pop_front() {
        Some(next) => pack_on(alloc, schema, id, rows, run, next, rest),
        None => {
            drop(schema);
            drop(rest);
            let text = frame_text(alloc, id, rows, &run)?;
            Ok(Phase::Ready { id, text })
        }
    }
}

/// The phase in which this next file is to be read, with the rows that were read before packed.
fn pack_on(
    alloc: Global,
    schema: TableSchema,
    id: u64,
    rows: PackedRows,
    run: StoredRun,
    next: ChangesFile,
    rest: VecDeque<ChangesFile>,
) -> Result<Phase, AllocError>
    requires { HaveOwnKeys schema (rows ++ run) }
    ensures goes { IfOk result (λ phase. phase ≡ phases.Files (reading_of schema id (rows ++ run) next rest.items)) }
    ensures is_reader { IfOk result IsReader }
{
    let mut rows = rows;
    match pack_rows(alloc, &run, &mut rows) {
        Ok(()) => {
            drop(run);
            Ok(Phase::Files {
                reading: Reading {
                    schema,
                    id,
                    rows,
                    next,
                    rest,
                },
            })
        }
        Err(error) => {
            drop(schema);
            drop(rows);
            drop(run);
            drop(next);
            drop(rest);
            Err(error)
        }
    }
}

/// The phase once this was found at the path of the next file.
pub(crate) fn after_file(
    alloc: Global,
    reading: Reading,
    found: Option<Blob>,
) -> Result<Phase, Refusal>
    ensures goes { IfOk result (Goes (phases.Files reading) (answers.Found found)) }
    ensures is_reader { IfOk result IsReader }
    ensures refuses { IfErr result (Shown (phases.Files reading) (answers.Found found)) }
{
    match found {
        Some(bytes) => after_bytes(alloc, reading, bytes),
        None => Ok(again(reading)),
    }
}

/// The phase once these bytes were found at the path of the next file.
fn after_bytes(alloc: Global, reading: Reading, bytes: Blob) -> Result<Phase, Refusal>
    ensures goes { IfOk result (Goes (phases.Files reading) (answers.Found (Some bytes))) }
    ensures is_reader { IfOk result IsReader }
    ensures refuses { IfErr result (Shown (phases.Files reading) (answers.Found (Some bytes))) }
{
    order_law();
    own_keys_law();
    let Reading {
        schema,
        id,
        rows,
        next,
        rest,
    } = reading;
    let run = rows_of(alloc, &schema, &next, bytes);
    drop(next);
    match run {
        Ok(run) => match read_on(alloc, schema, id, rows, run, rest) {
            Ok(phase) => Ok(phase),
            Err(_) => Err(Refusal::Memory),
        },
        Err(refusal) => {
            drop(schema);
            drop(rows);
            drop(rest);
            Err(refusal)
        }
    }
}

/// The phase in which the snapshot is to be read again, since the next file is absent.
fn again(reading: Reading) -> Phase
    ensures { result ≡ phases.Again reading.id reading.next.path }
{
    let Reading {
        schema,
        id,
        rows,
        next,
        rest,
    } = reading;
    drop(schema);
    drop(rows);
    drop(rest);
    let ChangesFile { path, .. } = next;
    Phase::Again { id, path }
}

/// The refusal once this was found at the path of the snapshot, after the file at a path that it names was absent.
pub(crate) fn after_again(id: u64, path: Txt, found: Option<Blob>) -> Refusal
    ensures { Shown (phases.Again id path) (answers.Found found) result }
{
    match found {
        Some(_) => Refusal::Damaged { path, place: 0 },
        None => Refusal::Expired { id },
    }
}
