//! The phases of a registrar, and what they mean.

ghost use Rattle.std.specs.Prelude.{◌≡◌, IfErr, IfOk, option_map};
ghost use Rattle.pm_store.specs.declared.answer.Answer.TheVariants as answers;
ghost use Rattle.pm_register.specs.Registrar.{Goes, Shown};
ghost use Rattle.pm_register.specs.declared.phase.Phase.TheVariants as phases;

use crate::phase::{Phase, Registration};
use crate::registrar::RegisterStep;
use pm_base::{Blob, Txt};
use pm_consumer_files::floor_above;
use pm_machine::PhaseMeaning;
use pm_store::{Answer, LentCall, Swapped};
use pm_values::Refusal;
use std::alloc::{AllocError, Global};

impl pm_machine::Phase for Phase {
    ghost use Rattle.pm_register.specs.Registrar.{next_call, Goes, Shown};

    ghost call_of = { next_call };

    ghost goes = { Goes };

    ghost shown = { Shown };

    ghost holds = { λ phase. Unit {0} };

    ghost end = { phases.Over };

    fn call(&self, alloc: Global) -> Result<Option<LentCall<'_>>, AllocError> {
        match self {
            Phase::New {
                found,
                registration,
            } => Ok(Some(LentCall::Swap {
                path: registration.path.copy(alloc)?,
                expected: lent(found),
                bytes: registration.fresh.as_bytes(),
            })),
            Phase::Floors { .. } => Ok(Some(LentCall::List {
                folder: Txt::from_str(alloc, "floor")?,
            })),
            Phase::Settle { registration } => Ok(Some(LentCall::Swap {
                path: registration.path.copy(alloc)?,
                expected: Some(registration.fresh.as_bytes()),
                bytes: registration.known.as_bytes(),
            })),
            Phase::Settled | Phase::Over => Ok(None),
        }
    }

    fn next(self, _alloc: Global, answer: Answer) -> Result<Phase, Refusal> {
        match (self, answer) {
            (Phase::New { registration, .. }, Answer::Swapped(Swapped::Swapped)) => {
                Ok(Phase::Floors { registration })
            }
            (Phase::Floors { registration }, Answer::Listed(names)) => {
                after_floors(registration, names)
            }
            (Phase::Settle { .. }, Answer::Swapped(Swapped::Swapped)) => Ok(Phase::Settled),
            (Phase::New { .. } | Phase::Settle { .. }, Answer::Swapped(Swapped::Differs(found))) =>
                { Err(Refusal::ConsumerMoved { found }) }
            _ => unreachable!(),
        }
    }

    fn over() -> Phase {
        Phase::Over
    }
}

/// The bytes of a file, where it is there.
fn lent(found: &Option<Blob>) -> Option<&[u8]>
    ensures { option_map (λ bytes. bytes.now) result ≡ found.now }
{
    match found {
        Some(bytes) => Some(bytes.as_bytes()),
        None => None,
    }
}

/// The phase once the floors were listed.
fn after_floors(registration: Registration, names: Vec<Txt>) -> Result<Phase, Refusal>
    ensures goes { IfOk result (Goes (phases.Floors registration) (answers.Listed names)) }
    ensures refuses { IfErr result (Shown (phases.Floors registration) (answers.Listed names)) }
{
    let next = registration.next;
    match floor_above(names.as_slice(), next) {
        Some(floor) => {
            drop(registration);
            Err(Refusal::BelowFloor { next, floor })
        }
        None => Ok(Phase::Settle { registration }),
    }
}

impl PhaseMeaning for Phase {
    ghost use Rattle.pm_register.specs.Meaning as meaning;
    ghost use Rattle.pm_register.specs.Meaning.{KnowsBeside, RegistersBeside, StandsBeside};
    ghost use Rattle.pm_register.specs.Registrar as registrars;
    ghost use Rattle.pm_register.specs.Registrar.{calls_left, reached_at, GoesOnce, Reaches};
    ghost use Rattle.pm_register.specs.Trace.{Did, Shows};

    type Step = RegisterStep;

    ghost History = { meaning.Beside };

    ghost Folder = { StandsBeside };

    ghost Change = { RegistersBeside };

    ghost knows = { KnowsBeside };

    ghost tells = { λ refusal f p. Unit {0} };

    ghost Asked = { registrars.Registering };

    ghost did = { Did };

    ghost shows = { Shows };

    ghost calls_left = { calls_left };

    ghost reached_at = { reached_at };

    ghost reaches = { Reaches };

    ghost keeps = { GoesOnce };

    fn reached(&self) -> RegisterStep {
        match self {
            Phase::Settled => RegisterStep::Settled,
            _ => RegisterStep::More,
        }
    }
}
