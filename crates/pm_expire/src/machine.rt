//! The phases of an expirer, and what they mean.

ghost use Rattle.pm_expire.specs.declared.phase.Phase.TheVariants as phases;

use crate::after::{after_announce, after_read, after_remove};
use crate::expirer::ExpireStep;
use crate::phase::Phase;
use crate::views::after_view;
use pm_machine::{Machine, PhaseMeaning};
use pm_store::{Answer, LentCall};
use pm_values::Refusal;
use std::alloc::{AllocError, Global};

impl pm_machine::Phase for Phase {
    ghost use Rattle.pm_expire.specs.Expirer.{next_call, Goes, IsExpirer, Shown};

    ghost call_of = { next_call };

    ghost goes = { Goes };

    ghost shown = { Shown };

    ghost holds = { IsExpirer };

    ghost end = { phases.Over };

    fn call(&self, alloc: Global) -> Result<Option<LentCall<'_>>, AllocError> {
        match self {
            Phase::Read { reader } => reader.call(alloc),
            Phase::Announce { announcer } => announcer.call(alloc),
            Phase::View { reader, .. } => reader.call(alloc),
            Phase::Remove { remover, .. } => remover.call(alloc),
            Phase::Done { .. } | Phase::Over => Ok(None),
        }
    }

    fn over() -> Phase {
        Phase::Over
    }

    fn next(self, alloc: Global, answer: Answer) -> Result<Phase, Refusal> {
        match self {
            Phase::Read { reader } => after_read(alloc, reader, answer),
            Phase::Announce { announcer } => after_announce(alloc, announcer, answer),
            Phase::View { views, reader } => after_view(alloc, views, reader, answer),
            Phase::Remove {
                first,
                last,
                remover,
            } => after_remove(alloc, first, last, remover, answer),
            Phase::Done { .. } | Phase::Over => unreachable!(),
        }
    }
}

impl PhaseMeaning for Phase {
    ghost use Rattle.pm_read_expiry.specs.declared.asking.Asking as asked;
    ghost use Rattle.pm_expire.specs.Expirer.{calls_left, reached_at, Reaches};
    ghost use Rattle.pm_expire.specs.Meaning as meaning;
    ghost use Rattle.pm_expire.specs.Meaning.{KnowsBeside, MakesBeside, StandsBeside, TellsBeside};
    ghost use Rattle.pm_expire.specs.Trace.{Did, Shows};

    type Step = ExpireStep;

    ghost History = { meaning.Beside };

    ghost Folder = { StandsBeside };

    ghost Change = { MakesBeside };

    ghost knows = { KnowsBeside };

    ghost tells = { TellsBeside };

    ghost Asked = { asked.Asking };

    ghost did = { Did };

    ghost shows = { Shows };

    ghost calls_left = { calls_left };

    ghost reached_at = { reached_at };

    ghost reaches = { Reaches };

    ghost keeps = { λ old new. Unit {0} };

    fn reached(&self) -> ExpireStep {
        match self {
            Phase::Done { first, last } => ExpireStep::Done {
                first: *first,
                last: *last,
            },
            _ => ExpireStep::More,
        }
    }
}
