//! The phases of a scanner, and what they mean.

ghost use Rattle.pm_model_folder.specs.Ledger as ledgers;
ghost use Rattle.pm_read_schema.specs.Beside.{IsTold};
ghost use Rattle.pm_scan.specs.Asked as asks;
ghost use Rattle.pm_scan.specs.Meaning.{Knows};
ghost use Rattle.pm_scan.specs.Scanner.{calls_left, next_call, Goes, IsReady, IsScanner, Shown};
ghost use Rattle.pm_scan.specs.Trace.{Did, Shows};
ghost use Rattle.pm_scan.specs.declared.phase.Phase.TheVariants as phases;

use crate::after::{after_files, after_view};
use crate::phase::Phase;
use pm_machine::{Machine, ReaderPhase};
use pm_store::{Answer, LentCall};
use pm_values::Refusal;
use std::alloc::{AllocError, Global};

impl pm_machine::Phase for Phase {
    ghost call_of = { next_call };

    ghost goes = { Goes };

    ghost shown = { Shown };

    ghost holds = { IsScanner };

    ghost end = { phases.Over };

    fn call(&self, alloc: Global) -> Result<Option<LentCall<'_>>, AllocError> {
        match self {
            Phase::View { reader, .. } => reader.call(alloc),
            Phase::Files { files, .. } => files.call(alloc),
            Phase::Ready { .. } | Phase::Over => Ok(None),
        }
    }

    fn over() -> Phase {
        Phase::Over
    }

    fn next(self, alloc: Global, answer: Answer) -> Result<Phase, Refusal> {
        match (self, answer) {
            (Phase::View { rows, reader }, answer) => after_view(alloc, rows, reader, answer),
            (Phase::Files { rows, id, files }, answer) => {
                after_files(alloc, rows, id, files, answer)
            }
            _ => unreachable!(),
        }
    }
}

impl ReaderPhase for Phase {
    ghost History = { ledgers.Past };

    ghost Folder = { ledgers.Stands };

    ghost knows = { Knows };

    ghost tells = { IsTold };

    ghost Asked = { asks.AskedRows };

    ghost did = { Did };

    ghost shows = { Shows };

    ghost calls_left = { calls_left };

    ghost ready = { IsReady };
}
