//! The phases of a reader of a consumer's file, and what they mean.

ghost use Rattle.std.specs.Prelude.{IfErr, IfOk, List, Some, ℕ};
ghost use Rattle.pm_model_folder.specs.Ledger as ledgers;
ghost use Rattle.pm_store.specs.declared.answer.Answer.TheVariants as answers;
ghost use Rattle.pm_read_schema.specs.Beside.{AnyPast, IsTold};
ghost use Rattle.pm_read_consumer.specs.Reader.{calls_left, next_call, Goes, IsReady, ReadsConsumer, Shown};
ghost use Rattle.pm_read_consumer.specs.Trace.{Did, Shows};
ghost use Rattle.pm_read_consumer.specs.declared.phase.Phase.TheVariants as phases;

use crate::phase::{FoundConsumer, Phase};
use pm_base::{Blob, Txt};
use pm_machine::ReaderPhase;
use pm_snapshot::{SnapFault, read_consumer};
use pm_store::{Answer, LentCall};
use pm_values::Refusal;
use std::alloc::{AllocError, Global};

impl pm_machine::Phase for Phase {
    ghost call_of = { next_call };

    ghost goes = { Goes };

    ghost shown = { Shown };

    ghost holds = { ReadsConsumer };

    ghost end = { phases.Over };

    fn call(&self, alloc: Global) -> Result<Option<LentCall<'_>>, AllocError> {
        match self {
            Phase::Read { path } => Ok(Some(LentCall::Read {
                path: path.copy(alloc)?,
            })),
            Phase::Ready { .. } | Phase::Over => Ok(None),
        }
    }

    fn over() -> Phase {
        Phase::Over
    }

    fn next(self, alloc: Global, answer: Answer) -> Result<Phase, Refusal> {
        match (self, answer) {
            (Phase::Read { path }, Answer::Found(found)) => after_read(alloc, path, found),
            _ => unreachable!(),
        }
    }
}

/// The phase once this was found at the path.
fn after_read(alloc: Global, path: Txt, found: Option<Blob>) -> Result<Phase, Refusal>
    ensures goes { IfOk result (Goes (phases.Read path) (answers.Found found)) }
    ensures holds { IfOk result ReadsConsumer }
    ensures refuses { IfErr result (Shown (phases.Read path) (answers.Found found)) }
{
    match found {
        Some(bytes) => after_bytes(alloc, path, bytes),
        None => {
            drop(path);
            Ok(Phase::Ready {
                found: FoundConsumer {
                    found: None,
                    consumer: None,
                },
            })
        }
    }
}

/// The phase once these bytes were found at the path.
fn after_bytes(alloc: Global, path: Txt, bytes: Blob) -> Result<Phase, Refusal>
    ensures goes { IfOk result (Goes (phases.Read path) (answers.Found (Some bytes))) }
    ensures holds { IfOk result ReadsConsumer }
    ensures refuses { IfErr result (Shown (phases.Read path) (answers.Found (Some bytes))) }
{
    match read_consumer(alloc, bytes.as_bytes()) {
        Ok(consumer) => {
            drop(path);
            Ok(Phase::Ready {
                found: FoundConsumer {
                    found: Some(bytes),
                    consumer: Some(consumer),
                },
            })
        }
        Err(SnapFault::Bad) => {
            drop(bytes);
            Err(Refusal::Damaged { path, place: 0 })
        }
        Err(SnapFault::Memory) => {
            drop(path);
            drop(bytes);
            Err(Refusal::Memory)
        }
    }
}

impl ReaderPhase for Phase {
    ghost History = { ledgers.Past };

    ghost Folder = { ledgers.Stands };

    ghost knows = { λ phase. AnyPast };

    ghost tells = { IsTold };

    ghost Asked = { List ℕ };

    ghost did = { Did };

    ghost shows = { Shows };

    ghost calls_left = { calls_left };

    ghost ready = { IsReady };
}
