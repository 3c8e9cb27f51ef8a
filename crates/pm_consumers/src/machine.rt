//! The phases of a lister of consumers, and what they mean.

ghost use Rattle.std.specs.Cmp.Lexicographic.{slice_cmp};
ghost use Rattle.std.specs.List.Sorted.{IsStrictlySortedBy};
ghost use Rattle.std.specs.Ordering.{nat_cmp};
ghost use Rattle.std.specs.Prelude.{◌≡◌, None, Some, IfErr, IfOk, IsSome};
ghost use Rattle.pm_model_folder.specs.Ledger as ledgers;
ghost use Rattle.pm_store.specs.declared.answer.Answer.TheVariants as answers;
ghost use Rattle.pm_read_schema.specs.Beside.{AnyPast, IsTold};
ghost use Rattle.pm_consumers.specs.Lister.{calls_left, next_call, Goes, IsDone, MayRefuse, Shown};
ghost use Rattle.pm_consumers.specs.Reading.{next_name};
ghost use Rattle.pm_consumers.specs.Trace.{Did, Shows};
ghost use Rattle.pm_consumers.specs.declared.phase.Phase.TheVariants as phases;

use crate::names::names_of;
use crate::phase::Phase;
use crate::reading::Reading;
use pm_base::{Blob, Txt};
use pm_consumer_files::consumer_path;
use pm_machine::ReaderPhase;
use pm_snapshot::{SnapFault, read_consumer};
use pm_store::{Answer, LentCall};
use pm_values::Refusal;
use std::alloc::{AllocError, Global};

impl pm_machine::Phase for Phase {
    ghost call_of = { next_call };

    ghost goes = { Goes };

    ghost shown = { Shown };

    ghost holds = { λ phase. Unit {0} };

    ghost end = { phases.Over };

    fn call(&self, alloc: Global) -> Result<Option<LentCall<'_>>, AllocError> {
        match self {
            Phase::List => Ok(Some(LentCall::List {
                folder: Txt::from_str(alloc, "consumer")?,
            })),
            Phase::Read { reading } => match reading.next() {
                Some(name) => Ok(Some(LentCall::Read {
                    path: consumer_path(alloc, name)?,
                })),
                None => Ok(None),
            },
            Phase::Over => Ok(None),
        }
    }

    fn over() -> Phase {
        Phase::Over
    }

    fn next(self, alloc: Global, answer: Answer) -> Result<Phase, Refusal> {
        match (self, answer) {
            (Phase::List, Answer::Listed(files)) => after_list(alloc, files),
            (Phase::Read { reading }, Answer::Found(found)) => after_read(alloc, reading, found),
            _ => unreachable!(),
        }
    }
}

impl ReaderPhase for Phase {
    ghost History = { ledgers.Past };

    ghost Folder = { ledgers.Stands };

    ghost knows = { λ phase. AnyPast };

    ghost tells = { IsTold };

    ghost Asked = { Unit {0} };

    ghost did = { λ asked. Did };

    ghost shows = { λ asked. Shows };

    ghost calls_left = { calls_left };

    ghost ready = { IsDone };
}

/// The phase once the consumers were listed.
fn after_list(alloc: Global, files: Vec<Txt>) -> Result<Phase, Refusal>
    requires { IsStrictlySortedBy (slice_cmp nat_cmp) files.items }
    ensures goes { IfOk result (Goes phases.List (answers.Listed files)) }
    ensures refuses { IfErr result (Shown phases.List (answers.Listed files)) }
{
    match names_of(alloc, files.as_slice()) {
        Ok(names) => {
            let _ = names.len();
            Ok(Phase::Read {
                reading: Reading::new(alloc, names),
            })
        }
        Err(_) => Err(Refusal::Memory),
    }
}

/// The phase once this was found at the path of the next consumer.
fn after_read(alloc: Global, reading: Reading, found: Option<Blob>) -> Result<Phase, Refusal>
    requires { IsSome (next_name reading) }
    ensures goes { IfOk result (Goes (phases.Read reading) (answers.Found found)) }
    ensures refuses { IfErr result (Shown (phases.Read reading) (answers.Found found)) }
{
    match found {
        Some(bytes) => after_bytes(alloc, reading, bytes),
        None => Ok(after_absent(reading)),
    }
}

/// The phase once there was no file at that path: it is passed over.
fn after_absent(reading: Reading) -> Phase
    requires { IsSome (next_name reading) }
    ensures { Goes (phases.Read reading) (answers.Found None) result }
{
    Phase::Read {
        reading: reading.pass(),
    }
}

/// The phase once these bytes were found at the path of the next consumer.
fn after_bytes(alloc: Global, reading: Reading, bytes: Blob) -> Result<Phase, Refusal>
    requires { IsSome (next_name reading) }
    ensures goes { IfOk result (Goes (phases.Read reading) (answers.Found (Some bytes))) }
    ensures refuses { IfErr result (Shown (phases.Read reading) (answers.Found (Some bytes))) }
{
    match reading.copy_next(alloc) {
        Ok(name) => after_name(alloc, reading, name, bytes),
        Err(_) => {
            drop(reading);
            drop(bytes);
            Err(Refusal::Memory)
        }
    }
}

/// The phase once these bytes were found at the path of the consumer with this name, the next one.
fn after_name(alloc: Global, reading: Reading, name: Txt, bytes: Blob) -> Result<Phase, Refusal>
    requires { next_name reading ≡ Some name }
    ensures goes { IfOk result (Goes (phases.Read reading) (answers.Found (Some bytes))) }
    ensures refuses { IfErr result (Shown (phases.Read reading) (answers.Found (Some bytes))) }
{
    match read_consumer(alloc, bytes.as_bytes()) {
        Ok(consumer) => match reading.add(name, consumer) {
            Ok(reading) => Ok(Phase::Read { reading }),
            Err(_) => Err(Refusal::Memory),
        },
        Err(fault) => {
            drop(reading);
            Err(damaged(alloc, &name, fault))
        }
    }
}

/// The refusal of the file of a consumer with a fault.
fn damaged(alloc: Global, name: &Txt, fault: SnapFault) -> Refusal
    ensures { MayRefuse name.now fault result }
{
    match fault {
        SnapFault::Memory => Refusal::Memory,
        SnapFault::Bad => match consumer_path(alloc, name) {
            Ok(path) => Refusal::Damaged { path, place: 0 },
            Err(_) => Refusal::Memory,
        },
    }
}
