//! The phases of a lister of snapshots, and what they mean.

ghost use Rattle.std.specs.Prelude.{◌≡◌, Some, IfOk, IfErr, IsSome, IsSomeAnd};
ghost use Rattle.pm_model_folder.specs.Ledger as ledgers;
ghost use Rattle.pm_store.specs.Answers.{MayAnswer};
ghost use Rattle.pm_store.specs.declared.answer.Answer.TheVariants as answers;
ghost use Rattle.pm_values.specs.declared.refusal.Refusal.TheVariants as refusals;
ghost use Rattle.pm_read_schema.specs.Reader as readers;
ghost use Rattle.pm_read_schema.specs.Beside.{IsTold};
ghost use Rattle.pm_snapshots.specs.Lister.{after_reader, calls_left, next_call, Goes, GoesToRead, IsDone, IsLister};
ghost use Rattle.pm_snapshots.specs.Lister.{KeepsSchema, MayRefuse, Shown};
ghost use Rattle.pm_snapshots.specs.Meaning.{Knows};
ghost use Rattle.pm_snapshots.specs.Reading.{next_id};
ghost use Rattle.pm_snapshots.specs.Trace.{Did, Shows};
ghost use Rattle.pm_snapshots.specs.declared.phase.Phase.TheVariants as phases;

use crate::line::line_of;
use crate::phase::Phase;
use crate::reading::Reading;
use pm_base::{Blob, Txt};
use pm_machine::{Machine, ReaderPhase, Running};
use pm_paths::{ids_of, snapshot_path};
use pm_read_schema::{Phase as SchemaPhase, SchemaReader};
use pm_schema::TableSchema;
use pm_snapshot::{SnapFault, read_snapshot};
use pm_store::{Answer, LentCall};
use pm_values::Refusal;
use std::alloc::{AllocError, Global};

impl pm_machine::Phase for Phase {
    ghost call_of = { next_call };

    ghost goes = { Goes };

    ghost shown = { Shown };

    ghost holds = { IsLister };

    ghost end = { phases.Over };

    fn call(&self, alloc: Global) -> Result<Option<LentCall<'_>>, AllocError> {
        match self {
            Phase::Schema { reader } => reader.call(alloc),
            Phase::List { .. } => Ok(Some(LentCall::List {
                folder: Txt::from_str(alloc, "snapshot")?,
            })),
            Phase::Read { reading } => match reading.next() {
                Some(id) => Ok(Some(LentCall::Read {
                    path: snapshot_path(alloc, id)?,
                })),
                None => Ok(None),
            },
            Phase::Over => Ok(None),
        }
    }

    fn over() -> Phase {
        Phase::Over
    }

    fn next(self, alloc: Global, answer: Answer) -> Result<Phase, Refusal> {
        match (self, answer) {
            (Phase::Schema { reader }, answer) => after_schema(alloc, reader, answer),
            (Phase::List { schema }, Answer::Listed(names)) => after_list(alloc, schema, names),
            (Phase::Read { reading }, Answer::Found(found)) => after_read(alloc, reading, found),
            _ => unreachable!(),
        }
    }
}

impl ReaderPhase for Phase {
    ghost History = { ledgers.Past };

    ghost Folder = { ledgers.Stands };

    ghost knows = { Knows };

    ghost tells = { IsTold };

    ghost Asked = { Unit {0} };

    ghost did = { λ asked. Did };

    ghost shows = { λ asked. Shows };

    ghost calls_left = { calls_left };

    ghost ready = { IsDone };

    ghost keeps = { KeepsSchema };
}

/// The phase after an answer to a call of the schema's reader.
fn after_schema(alloc: Global, reader: SchemaReader, answer: Answer) -> Result<Phase, Refusal>
    requires may { IsSomeAnd (readers.next_call reader) (λ call. MayAnswer call answer) }
    ensures goes { IfOk result (Goes (phases.Schema reader) answer) }
    ensures is_lister { IfOk result IsLister }
    ensures refuses { IfErr result (Shown (phases.Schema reader) answer) }
{
    let mut reader = reader;
    match reader.take(alloc, answer) {
        Ok(()) => Ok(after_reader(reader)),
        Err(refusal) => {
            drop(reader);
            Err(refusal)
        }
    }
}

/// The phase with this reader of the schema: the snapshots are to be listed once it is ready.
fn after_reader(reader: SchemaReader) -> Phase
    ensures { result ≡ after_reader reader }
{
    match reader.into_phase() {
        SchemaPhase::Ready { schema } => Phase::List { schema },
        phase => Phase::Schema {
            reader: Running::new(phase),
        },
    }
}

/// The phase once the snapshots were listed.
fn after_list(alloc: Global, schema: TableSchema, names: Vec<Txt>) -> Result<Phase, Refusal>
    ensures goes { IfOk result (GoesToRead schema names.items) }
    ensures is_lister { IfOk result IsLister }
    ensures refuses { IfErr result (λ refusal. refusal ≡ refusals.Memory) }
{
    match ids_of(alloc, names.as_slice()) {
        Ok(ids) => Ok(Phase::Read {
            reading: Reading::new(alloc, schema, ids),
        }),
        Err(_) => {
            drop(schema);
            Err(Refusal::Memory)
        }
    }
}

/// The phase once this was found at the path of the next snapshot.
fn after_read(alloc: Global, reading: Reading, found: Option<Blob>) -> Result<Phase, Refusal>
    requires next { IsSome (next_id reading) }
    ensures goes { IfOk result (Goes (phases.Read reading) (answers.Found found)) }
    ensures is_lister { IfOk result IsLister }
    ensures refuses { IfErr result (Shown (phases.Read reading) (answers.Found found)) }
{
    match (reading.next(), found) {
        (Some(id), Some(bytes)) => after_bytes(alloc, reading, id, bytes),
        (Some(id), None) => {
            drop(reading);
            Err(Refusal::Expired { id })
        }
        (None, _) => unreachable!(),
    }
}

/// The phase once these bytes were found at the path of the next snapshot.
fn after_bytes(alloc: Global, reading: Reading, id: u64, bytes: Blob) -> Result<Phase, Refusal>
    requires next { next_id reading ≡ Some id }
    ensures goes { IfOk result (Goes (phases.Read reading) (answers.Found (Some bytes))) }
    ensures is_lister { IfOk result IsLister }
    ensures refuses { IfErr result (Shown (phases.Read reading) (answers.Found (Some bytes))) }
{
    match read_snapshot(alloc, id, bytes.as_bytes()) {
        Ok(snapshot) => match reading.add(line_of(snapshot)) {
            Ok(reading) => Ok(Phase::Read { reading }),
            Err(_) => Err(Refusal::Memory),
        },
        Err(fault) => {
            drop(reading);
            Err(damaged(alloc, id, fault))
        }
    }
}

/// The refusal of a snapshot's file with a fault.
fn damaged(alloc: Global, id: u64, fault: SnapFault) -> Refusal
    ensures { MayRefuse id fault result }
{
    match fault {
        SnapFault::Memory => Refusal::Memory,
        SnapFault::Bad => match snapshot_path(alloc, id) {
            Ok(path) => Refusal::Damaged { path, place: 0 },
            Err(_) => Refusal::Memory,
        },
    }
}
