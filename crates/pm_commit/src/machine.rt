//! The phases of a committer as a machine.

ghost use Rattle.std.specs.Prelude.{◌≡◌, IfOk, IsSomeAnd};
ghost use Rattle.pm_store.specs.Answers.{MayAnswer};
ghost use Rattle.pm_commit.specs.Committer.{next_call, After, IsCommitter};
ghost use Rattle.pm_commit.specs.declared.phase.Phase.TheVariants as phases;

use crate::after::{after_names, after_search, after_view};
use crate::laws::committer_law;
use crate::phase::Phase;
use crate::put::after_put;
use pm_base::Txt;
use pm_machine::Machine;
use pm_paths::snapshot_path;
use pm_store::{Answer, LentCall};
use pm_values::Refusal;
use std::alloc::{AllocError, Global};

impl pm_machine::Phase for Phase {
    ghost use Rattle.pm_commit.specs.Committer.{next_call, Goes, IsCommitter, Shown};

    ghost call_of = { next_call };

    ghost goes = { Goes };

    ghost shown = { Shown };

    ghost holds = { IsCommitter };

    ghost end = { phases.Over };

    fn call(&self, alloc: Global) -> Result<Option<LentCall<'_>>, AllocError> {
        match self {
            Phase::Names { .. } => Ok(Some(LentCall::List {
                folder: Txt::from_str(alloc, "manifest")?,
            })),
            Phase::View { reader, .. } => reader.call(alloc),
            Phase::Search { searching, .. } => Ok(Some(LentCall::Read {
                path: snapshot_path(alloc, searching.id)?,
            })),
            Phase::Put { putter, .. } => putter.call(alloc),
            Phase::Committed { .. } | Phase::Already { .. } | Phase::Over => Ok(None),
        }
    }

    fn next(self, alloc: Global, answer: Answer) -> Result<Phase, Refusal> {
        match next_phase(alloc, self, answer) {
            Ok(phase) => Ok(phase),
            Err(refusal) => Err(refusal),
        }
    }

    fn over() -> Phase {
        Phase::Over
    }
}

/// The phase after an answer, or the refusal that it shows.
fn next_phase(alloc: Global, phase: Phase, answer: Answer) -> Result<Phase, Refusal>
    requires may { IsSomeAnd (next_call phase) (λ call. MayAnswer call answer) }
    requires is_committer { IsCommitter phase }
    ensures after { After phase answer result }
    ensures is_committer { IfOk result IsCommitter }
{
    committer_law();
    match (phase, answer) {
        (Phase::Names { own, schema }, Answer::Listed(names)) => {
            after_names(alloc, own, schema, names)
        }
        (Phase::View { own, reader }, answer) => after_view(alloc, own, reader, answer),
        (Phase::Search { own, searching }, Answer::Found(bytes)) => {
            after_search(alloc, own, searching, bytes)
        }
        (
            Phase::Put {
                own,
                schema,
                id,
                putter,
            },
            answer,
        ) => { after_put(alloc, own, schema, id, putter, answer) }
        _ => unreachable!(),
    }
}
