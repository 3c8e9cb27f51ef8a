//! The phases of a creator, and what they mean.

ghost use Rattle.pm_create.specs.declared.phase.Phase.TheVariants as phases;

use crate::creator::CreateStep;
use crate::phase::Phase;
use pm_machine::PhaseMeaning;
use pm_paths::schema_path;
use pm_store::{Answer, LentCall, Made, Swapped};
use pm_values::Refusal;
use std::alloc::{AllocError, Global};

impl pm_machine::Phase for Phase {
    ghost use Rattle.pm_create.specs.Creator.{next_call, Goes, Shown};

    ghost call_of = { next_call };

    ghost goes = { Goes };

    ghost shown = { Shown };

    ghost holds = { λ phase. Unit {0} };

    ghost end = { phases.Over };

    fn call(&self, alloc: Global) -> Result<Option<LentCall<'_>>, AllocError> {
        match self {
            Phase::Origin { path, .. } => {
                let path = path.copy(alloc)?;
                Ok(Some(LentCall::Create { path, bytes: b"" }))
            }
            Phase::Schema { bytes } => Ok(Some(LentCall::Swap {
                path: schema_path(alloc, 0)?,
                expected: None,
                bytes: bytes.as_bytes(),
            })),
            Phase::Created | Phase::Over => Ok(None),
        }
    }

    fn next(self, _alloc: Global, answer: Answer) -> Result<Phase, Refusal> {
        match (self, answer) {
            (Phase::Origin { bytes, .. }, Answer::Made(Made::Created)) => {
                Ok(Phase::Schema { bytes })
            }
            (Phase::Origin { path, .. }, Answer::Made(Made::Exists)) => {
                Err(Refusal::SessionUsed { path })
            }
            (Phase::Schema { .. }, Answer::Swapped(Swapped::Swapped)) => Ok(Phase::Created),
            (Phase::Schema { .. }, Answer::Swapped(Swapped::Differs(_))) => {
                Err(Refusal::TableExists)
            }
            _ => unreachable!(),
        }
    }

    fn over() -> Phase {
        Phase::Over
    }
}

impl PhaseMeaning for Phase {
    ghost use Rattle.pm_create.specs.Creator as creators;
    ghost use Rattle.pm_create.specs.Creator.{calls_left, reached_at, GoesOnce, Reaches};
    ghost use Rattle.pm_create.specs.Meaning as meaning;
    ghost use Rattle.pm_create.specs.Meaning.{KnowsBeside, MakesBeside, StandsBeside};
    ghost use Rattle.pm_create.specs.Trace.{Did, Shows};

    type Step = CreateStep;

    ghost History = { meaning.Beside };

    ghost Folder = { StandsBeside };

    ghost Change = { MakesBeside };

    ghost knows = { KnowsBeside };

    ghost tells = { λ refusal f p. Unit {0} };

    ghost Asked = { creators.NewTable };

    ghost did = { Did };

    ghost shows = { Shows };

    ghost calls_left = { calls_left };

    ghost reached_at = { reached_at };

    ghost reaches = { Reaches };

    ghost keeps = { GoesOnce };

    fn reached(&self) -> CreateStep {
        match self {
            Phase::Created => CreateStep::Created,
            _ => CreateStep::More,
        }
    }
}
