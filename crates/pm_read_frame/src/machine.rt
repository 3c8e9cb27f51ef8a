//! The phases of a reader of a frame, and what they mean.

ghost use Rattle.pm_model_folder.specs.Ledger as ledgers;
ghost use Rattle.pm_read_log.specs.Log as logs;
ghost use Rattle.pm_read_schema.specs.Beside.{IsTold};
ghost use Rattle.pm_read_frame.specs.Meaning.{Knows};
ghost use Rattle.pm_read_frame.specs.Reader.{calls_left, next_call, Goes, IsReader, IsReady, Shown};
ghost use Rattle.pm_read_frame.specs.Trace.{Did, Shows};
ghost use Rattle.pm_read_frame.specs.declared.phase.Phase.TheVariants as phases;

use crate::after::{after_again, after_answer, after_file};
use crate::phase::Phase;
use pm_machine::{Machine, ReaderPhase};
use pm_paths::snapshot_path;
use pm_store::{Answer, LentCall};
use pm_values::Refusal;
use std::alloc::{AllocError, Global};

impl pm_machine::Phase for Phase {
    ghost call_of = { next_call };

    ghost goes = { Goes };

    ghost shown = { Shown };

    ghost holds = { IsReader };

    ghost end = { phases.Over };

    fn call(&self, alloc: Global) -> Result<Option<LentCall<'_>>, AllocError> {
        match self {
            Phase::Log { reader } => reader.call(alloc),
            Phase::Files { reading } => Ok(Some(LentCall::Read {
                path: reading.next.path.copy(alloc)?,
            })),
            Phase::Again { id, .. } => Ok(Some(LentCall::Read {
                path: snapshot_path(alloc, *id)?,
            })),
            Phase::Ready { .. } | Phase::Over => Ok(None),
        }
    }

    fn over() -> Phase {
        Phase::Over
    }

    fn next(self, alloc: Global, answer: Answer) -> Result<Phase, Refusal> {
        match (self, answer) {
            (Phase::Log { reader }, answer) => after_answer(alloc, reader, answer),
            (Phase::Files { reading }, Answer::Found(found)) => after_file(alloc, reading, found),
            (Phase::Again { id, path }, Answer::Found(found)) => Err(after_again(id, path, found)),
            _ => unreachable!(),
        }
    }
}

impl ReaderPhase for Phase {
    ghost History = { ledgers.Past };

    ghost Folder = { ledgers.Stands };

    ghost knows = { Knows };

    ghost tells = { IsTold };

    ghost Asked = { logs.LogAskedView };

    ghost did = { Did };

    ghost shows = { Shows };

    ghost calls_left = { calls_left };

    ghost ready = { IsReady };
}
