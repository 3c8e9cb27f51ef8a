//! The phases of a reader of a whole view, and what they mean.

ghost use Rattle.pm_model_folder.specs.Ledger as ledgers;
ghost use Rattle.pm_read_log.specs.Log as logs;
ghost use Rattle.pm_read_schema.specs.Beside.{IsTold};
ghost use Rattle.pm_read_whole.specs.Meaning.{Knows};
ghost use Rattle.pm_read_whole.specs.Trace.{Did, Shows};
ghost use Rattle.pm_read_whole.specs.Whole.{calls_left, next_call, Goes, IsReady, IsWhole, Shown};
ghost use Rattle.pm_read_whole.specs.declared.phase.Phase.TheVariants as phases;

use crate::after::after_answer;
use crate::phase::Phase;
use pm_machine::{Machine, ReaderPhase};
use pm_read_table::after_view;
use pm_store::{Answer, LentCall};
use pm_values::Refusal;
use std::alloc::{AllocError, Global};

impl pm_machine::Phase for Phase {
    ghost call_of = { next_call };

    ghost goes = { Goes };

    ghost shown = { Shown };

    ghost holds = { IsWhole };

    ghost end = { phases.Over };

    fn call(&self, alloc: Global) -> Result<Option<LentCall<'_>>, AllocError> {
        match self {
            Phase::View { reader } => reader.call(alloc),
            Phase::Log { reader, .. } => reader.call(alloc),
            Phase::Ready { .. } | Phase::Over => Ok(None),
        }
    }

    fn over() -> Phase {
        Phase::Over
    }

    fn next(self, alloc: Global, answer: Answer) -> Result<Phase, Refusal> {
        match self {
            Phase::View { reader } => after_view(alloc, reader, answer),
            Phase::Log { view, reader } => after_answer(alloc, view, reader, answer),
            Phase::Ready { .. } | Phase::Over => unreachable!(),
        }
    }
}

impl ReaderPhase for Phase {
    ghost History = { ledgers.Past };

    ghost Folder = { ledgers.Stands };

    ghost knows = { Knows };

    ghost tells = { IsTold };

    ghost Asked = { logs.LogAskedView };

    ghost did = { Did };

    ghost shows = { Shows };

    ghost calls_left = { calls_left };

    ghost ready = { IsReady };
}
