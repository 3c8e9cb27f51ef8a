//! The phases of a mover, and what they mean.

ghost use Rattle.pm_move_consumer.specs.declared.move_phase.MovePhase.TheVariants as phases;

use crate::move_phase::MovePhase;
use pm_machine::{Phase, PhaseMeaning};
use pm_store::{Answer, LentCall, Swapped};
use pm_values::Refusal;
use std::alloc::{AllocError, Global};

impl Phase for MovePhase {
    ghost use Rattle.pm_move_consumer.specs.Mover.{next_call, Goes, Shown};

    ghost call_of = { next_call };

    ghost goes = { Goes };

    ghost shown = { Shown };

    ghost holds = { λ phase. Unit {0} };

    ghost end = { phases.Over };

    fn call(&self, alloc: Global) -> Result<Option<LentCall<'_>>, AllocError> {
        match self {
            MovePhase::Swap {
                path,
                expected,
                bytes,
            } => Ok(Some(LentCall::Swap {
                path: path.copy(alloc)?,
                expected: Some(expected.as_bytes()),
                bytes: bytes.as_bytes(),
            })),
            MovePhase::Moved { .. } | MovePhase::Over => Ok(None),
        }
    }

    fn next(self, _alloc: Global, answer: Answer) -> Result<MovePhase, Refusal> {
        match (self, answer) {
            (MovePhase::Swap { bytes, .. }, Answer::Swapped(Swapped::Swapped)) => {
                Ok(MovePhase::Moved { bytes })
            }
            (MovePhase::Swap { .. }, Answer::Swapped(Swapped::Differs(found))) => {
                Err(Refusal::ConsumerMoved { found })
            }
            _ => unreachable!(),
        }
    }

    fn over() -> MovePhase {
        MovePhase::Over
    }
}

impl PhaseMeaning for MovePhase {
    ghost use Rattle.pm_move_consumer.specs.Mover as movers;
    ghost use Rattle.pm_move_consumer.specs.Mover.{calls_left, IsDone};
    ghost use Rattle.pm_move_consumer.specs.MoverMeaning as meaning;
    ghost use Rattle.pm_move_consumer.specs.MoverMeaning.{KnowsBeside, MovesBeside, StandsBeside};
    ghost use Rattle.pm_move_consumer.specs.MoverTrace.{Did, Shows};

    type Step = ();

    ghost History = { meaning.Beside };

    ghost Folder = { StandsBeside };

    ghost Change = { MovesBeside };

    ghost knows = { KnowsBeside };

    ghost tells = { λ refusal f p. Unit {0} };

    ghost Asked = { movers.Moving };

    ghost did = { Did };

    ghost shows = { Shows };

    ghost calls_left = { calls_left };

    ghost reached_at = { λ phase. tt };

    ghost reaches = { λ step phase. IsDone phase };

    ghost keeps = { λ old new. Unit {0} };

    fn reached(&self) {}
}
