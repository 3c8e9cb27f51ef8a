//! The phases of a reader of what an expiry needs to know, and what they mean.

ghost use Rattle.pm_model_folder.specs.Ledger as ledgers;
ghost use Rattle.pm_read_expiry.specs.Meaning.{IsTold, Knows};
ghost use Rattle.pm_read_expiry.specs.Reader.{calls_left, next_call, Goes, IsReader, IsReady, Shown};
ghost use Rattle.pm_read_expiry.specs.Trace.{Did, Shows};
ghost use Rattle.pm_read_expiry.specs.declared.asking.Asking as asked;
ghost use Rattle.pm_read_expiry.specs.declared.phase.Phase.TheVariants as phases;

use crate::after::{after_consumers, after_floors, after_snapshots, after_times};
use crate::phase::Phase;
use pm_base::Txt;
use pm_machine::{Machine, ReaderPhase};
use pm_store::{Answer, LentCall};
use pm_values::Refusal;
use std::alloc::{AllocError, Global};

impl pm_machine::Phase for Phase {
    ghost call_of = { next_call };

    ghost goes = { Goes };

    ghost shown = { Shown };

    ghost holds = { IsReader };

    ghost end = { phases.Over };

    fn call(&self, alloc: Global) -> Result<Option<LentCall<'_>>, AllocError> {
        match self {
            Phase::Snapshots { lister, .. } => lister.call(alloc),
            Phase::Floors { .. } => Ok(Some(LentCall::List {
                folder: Txt::from_str(alloc, "floor")?,
            })),
            Phase::Consumers { consumers, .. } => consumers.call(alloc),
            Phase::Times { listed, .. } => listed.lister.call(alloc),
            Phase::Ready { .. } | Phase::Over => Ok(None),
        }
    }

    fn over() -> Phase {
        Phase::Over
    }

    fn next(self, alloc: Global, answer: Answer) -> Result<Phase, Refusal> {
        match (self, answer) {
            (Phase::Snapshots { asking, lister }, answer) => {
                after_snapshots(alloc, asking, lister, answer)
            }
            (Phase::Floors { asking, lister }, Answer::Listed(floors)) => {
                Ok(after_floors(asking, lister, floors))
            }
            (Phase::Consumers { listed, consumers }, answer) => {
                after_consumers(alloc, listed, consumers, answer)
            }
            (Phase::Times { listed, next }, answer) => after_times(alloc, listed, next, answer),
            _ => unreachable!(),
        }
    }
}

impl ReaderPhase for Phase {
    ghost History = { ledgers.Past };

    ghost Folder = { ledgers.Stands };

    ghost knows = { Knows };

    ghost tells = { IsTold };

    ghost Asked = { asked.Asking };

    ghost did = { Did };

    ghost shows = { Shows };

    ghost calls_left = { calls_left };

    ghost ready = { IsReady };
}
