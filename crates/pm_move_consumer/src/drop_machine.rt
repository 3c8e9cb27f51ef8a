//! The phases of a dropper, and what they mean.

ghost use Rattle.pm_move_consumer.specs.declared.drop_phase.DropPhase.TheVariants as phases;

use crate::drop_phase::DropPhase;
use pm_machine::{Phase, PhaseMeaning};
use pm_store::{Answer, LentCall, Removed};
use pm_values::Refusal;
use std::alloc::{AllocError, Global};

impl Phase for DropPhase {
    ghost use Rattle.pm_move_consumer.specs.Dropper.{next_call, Goes, Shown};

    ghost call_of = { next_call };

    ghost goes = { Goes };

    ghost shown = { Shown };

    ghost holds = { λ phase. Unit {0} };

    ghost end = { phases.Over };

    fn call(&self, alloc: Global) -> Result<Option<LentCall<'_>>, AllocError> {
        match self {
            DropPhase::Remove { path } => Ok(Some(LentCall::Remove {
                path: path.copy(alloc)?,
            })),
            DropPhase::Dropped { .. } | DropPhase::Over => Ok(None),
        }
    }

    fn next(self, _alloc: Global, answer: Answer) -> Result<DropPhase, Refusal> {
        match (self, answer) {
            (DropPhase::Remove { .. }, Answer::Removed(Removed::Removed)) => {
                Ok(DropPhase::Dropped { was_there: true })
            }
            (DropPhase::Remove { .. }, Answer::Removed(Removed::Absent)) => {
                Ok(DropPhase::Dropped { was_there: false })
            }
            _ => unreachable!(),
        }
    }

    fn over() -> DropPhase {
        DropPhase::Over
    }
}

impl PhaseMeaning for DropPhase {
    ghost use Rattle.std.specs.Prelude.{List, ℕ};
    ghost use Rattle.pm_move_consumer.specs.Dropper.{calls_left, IsDone};
    ghost use Rattle.pm_move_consumer.specs.DropperMeaning as meaning;
    ghost use Rattle.pm_move_consumer.specs.DropperMeaning.{DropsBeside, KnowsBeside, StandsBeside};
    ghost use Rattle.pm_move_consumer.specs.DropperTrace.{Did, Shows};

    type Step = ();

    ghost History = { meaning.Beside };

    ghost Folder = { StandsBeside };

    ghost Change = { DropsBeside };

    ghost knows = { KnowsBeside };

    ghost tells = { λ refusal f p. Unit {0} };

    ghost Asked = { List ℕ };

    ghost did = { Did };

    ghost shows = { Shows };

    ghost calls_left = { calls_left };

    ghost reached_at = { λ phase. tt };

    ghost reaches = { λ step phase. IsDone phase };

    ghost keeps = { λ old new. Unit {0} };

    fn reached(&self) {}
}
