//! The phases of a reader of the latest snapshot's id, and what they mean.

ghost use Rattle.pm_model_folder.specs.Ledger as ledgers;
ghost use Rattle.pm_read_schema.specs.Beside.{IsTold};
ghost use Rattle.pm_read_latest.specs.Meaning.{Knows};
ghost use Rattle.pm_read_latest.specs.Reader.{calls_left, next_call, Goes, IsReady, Shown};
ghost use Rattle.pm_read_latest.specs.Trace.{Did, Shows};
ghost use Rattle.pm_read_latest.specs.declared.phase.Phase.TheVariants as phases;

use crate::phase::Phase;
use pm_base::Txt;
use pm_machine::ReaderPhase;
use pm_paths::latest_of;
use pm_store::{Answer, LentCall};
use pm_values::Refusal;
use std::alloc::{AllocError, Global};

impl pm_machine::Phase for Phase {
    ghost call_of = { next_call };

    ghost goes = { Goes };

    ghost shown = { Shown };

    ghost holds = { λ phase. Unit {0} };

    ghost end = { phases.Over };

    fn call(&self, alloc: Global) -> Result<Option<LentCall<'_>>, AllocError> {
        match self {
            Phase::List => Ok(Some(LentCall::List {
                folder: Txt::from_str(alloc, "snapshot")?,
            })),
            Phase::Ready { .. } | Phase::Over => Ok(None),
        }
    }

    fn over() -> Phase {
        Phase::Over
    }

    fn next(self, _alloc: Global, answer: Answer) -> Result<Phase, Refusal> {
        match (self, answer) {
            (Phase::List, Answer::Listed(names)) => {
                let latest = latest_of(names.as_slice());
                drop(names);
                Ok(Phase::Ready { latest })
            }
            _ => unreachable!(),
        }
    }
}

impl ReaderPhase for Phase {
    ghost History = { ledgers.Past };

    ghost Folder = { ledgers.Stands };

    ghost knows = { Knows };

    ghost tells = { IsTold };

    ghost Asked = { Unit {0} };

    ghost did = { λ asked. Did };

    ghost shows = { λ asked. Shows };

    ghost calls_left = { calls_left };

    ghost ready = { IsReady };
}
