//! The phases of a compactor as a machine.

ghost use Rattle.pm_compactor.specs.Compactor.{IsCompactor, next_call, Goes, Shown};
ghost use Rattle.pm_compactor.specs.declared.phase.Phase.TheVariants as phases;

use crate::after::{after_commit, after_files, after_names, after_view};
use crate::create::after_create;
use crate::laws::compactor_law;
use crate::phase::Phase;
use pm_base::Txt;
use pm_machine::Machine;
use pm_store::{Answer, LentCall};
use pm_values::Refusal;
use std::alloc::{AllocError, Global};

impl pm_machine::Phase for Phase {
    ghost call_of = { next_call };

    ghost goes = { Goes };

    ghost shown = { Shown };

    ghost holds = { IsCompactor };

    ghost end = { phases.Over };

    fn call(&self, alloc: Global) -> Result<Option<LentCall<'_>>, AllocError> {
        match self {
            Phase::View { reader, .. } => reader.call(alloc),
            Phase::Names { .. } => Ok(Some(LentCall::List {
                folder: Txt::from_str(alloc, "manifest")?,
            })),
            Phase::Files { files, .. } => files.call(alloc),
            Phase::Create { next, .. } => {
                let path = next.path.copy(alloc)?;
                let bytes = next.bytes.as_bytes();
                Ok(Some(LentCall::Create { path, bytes }))
            }
            Phase::Commit { committer } => committer.call(alloc),
            Phase::Nothing | Phase::Over => Ok(None),
        }
    }

    fn over() -> Phase {
        Phase::Over
    }

    fn next(self, alloc: Global, answer: Answer) -> Result<Phase, Refusal> {
        compactor_law();
        match (self, answer) {
            (Phase::View { asking, reader }, answer) => after_view(alloc, asking, reader, answer),
            (Phase::Names { planned }, Answer::Listed(names)) => {
                after_names(alloc, planned, names)
            }
            (Phase::Files { planned, files }, answer) => {
                after_files(alloc, planned, files, answer)
            }
            (
                Phase::Create {
                    committer,
                    next,
                    rest,
                },
                Answer::Made(made),
            ) => after_create(committer, next, rest, made),
            (Phase::Commit { committer }, answer) => after_commit(alloc, committer, answer),
            _ => unreachable!(),
        }
    }
}
