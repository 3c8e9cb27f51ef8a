//! The phases of a remover, and what they mean.

ghost use Rattle.std.specs.Prelude.{◌≡◌};
ghost use Rattle.pm_remove.specs.Remover.{remove_next};
ghost use Rattle.pm_remove.specs.declared.phase.Phase.TheVariants as phases;

use crate::phase::Phase;
use crate::removal::Removal;
use pm_base::Txt;
use pm_store::{Answer, LentCall};
use pm_values::Refusal;
use std::alloc::{AllocError, Global};
use std::collections::VecDeque;

impl pm_machine::Phase for Phase {
    ghost use Rattle.pm_remove.specs.Remover.{next_call, Goes, Shown};

    ghost call_of = { next_call };

    ghost goes = { Goes };

    ghost shown = { Shown };

    ghost holds = { λ phase. Unit {0} };

    ghost end = { phases.Over };

    fn call(&self, alloc: Global) -> Result<Option<LentCall<'_>>, AllocError> {
        match self {
            Phase::Remove { removal } => Ok(Some(LentCall::Remove {
                path: removal.next.copy(alloc)?,
            })),
            Phase::Removed | Phase::Over => Ok(None),
        }
    }

    fn next(self, _alloc: Global, answer: Answer) -> Result<Phase, Refusal> {
        match (self, answer) {
            (Phase::Remove { removal }, Answer::Removed(_)) => Ok(after_remove(removal)),
            _ => unreachable!(),
        }
    }

    fn over() -> Phase {
        Phase::Over
    }
}

/// The phase in which the next of these paths is to be removed, or all were.
pub(crate) fn remove_next(paths: VecDeque<Txt>) -> Phase
    ensures { result ≡ remove_next paths.items }
{
    let mut rest = paths;
    match rest.pop_front() {
        Some(next) => Phase::Remove {
            removal: Removal { next, rest },
        },
        None => {
            drop(rest);
            Phase::Removed
        }
    }
}

/// What follows once the remove of a path was answered, also where it was absent. It takes no memory.
fn after_remove(removal: Removal) -> Phase
    ensures { result ≡ remove_next removal.rest }
{
    let Removal { next, rest } = removal;
    drop(next);
    remove_next(rest)
}
