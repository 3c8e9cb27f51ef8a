//! The phases of a reader of files, and what they mean.

ghost use Rattle.pm_group_files.specs.Chosen as chosen;
ghost use Rattle.pm_group_files.specs.Meaning as meaning;
ghost use Rattle.pm_group_files.specs.Meaning.{IsToldOf, KnowsChosen, StandsFor};
ghost use Rattle.pm_group_files.specs.Reader.{calls_left, next_call, Goes, IsReady, Shown};
ghost use Rattle.pm_group_files.specs.Trace.{Did, Shows};
ghost use Rattle.pm_group_files.specs.declared.phase.Phase.TheVariants as phases;

use crate::after::{after_again, after_file};
use crate::phase::Phase;
use pm_machine::ReaderPhase;
use pm_paths::snapshot_path;
use pm_store::{Answer, LentCall};
use pm_values::Refusal;
use std::alloc::{AllocError, Global};

impl pm_machine::Phase for Phase {
    ghost call_of = { next_call };

    ghost goes = { Goes };

    ghost shown = { Shown };

    ghost holds = { λ phase. Unit {0} };

    ghost end = { phases.Over };

    fn call(&self, alloc: Global) -> Result<Option<LentCall<'_>>, AllocError> {
        match self {
            Phase::Files { reading } => Ok(Some(LentCall::Read {
                path: reading.next.path.copy(alloc)?,
            })),
            Phase::Again { id, .. } => Ok(Some(LentCall::Read {
                path: snapshot_path(alloc, *id)?,
            })),
            Phase::Ready { .. } | Phase::Over => Ok(None),
        }
    }

    fn over() -> Phase {
        Phase::Over
    }

    fn next(self, alloc: Global, answer: Answer) -> Result<Phase, Refusal> {
        match (self, answer) {
            (Phase::Files { reading }, Answer::Found(found)) => after_file(alloc, reading, found),
            (Phase::Again { id, path }, Answer::Found(found)) => Err(after_again(id, path, found)),
            _ => unreachable!(),
        }
    }
}

impl ReaderPhase for Phase {
    ghost History = { meaning.PastOf };

    ghost Folder = { StandsFor };

    ghost knows = { KnowsChosen };

    ghost tells = { IsToldOf };

    ghost Asked = { chosen.Chosen };

    ghost did = { Did };

    ghost shows = { Shows };

    ghost calls_left = { calls_left };

    ghost ready = { IsReady };
}
