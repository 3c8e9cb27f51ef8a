//! The phases of a putter, and what they mean.

ghost use Rattle.std.specs.Prelude.{◌≡◌, IfOk, IfErr};
ghost use Rattle.pm_store.specs.declared.answer.Answer.TheVariants as answers;
ghost use Rattle.pm_put.specs.Putter.{after_publish, create_next, reached_at, Goes, Shown};
ghost use Rattle.pm_put.specs.declared.phase.Phase.TheVariants as phases;

use crate::phase::Phase;
use crate::putter::PutStep;
use crate::putting::{CommitFile, Making, Publishing};
use pm_store::{Answer, LentCall, Made, Published};
use pm_values::Refusal;
use std::alloc::{AllocError, Global};
use std::collections::VecDeque;

impl pm_machine::Phase for Phase {
    ghost use Rattle.pm_put.specs.Putter.{next_call, Goes, Shown};

    ghost call_of = { next_call };

    ghost goes = { Goes };

    ghost shown = { Shown };

    ghost holds = { λ phase. Unit {0} };

    ghost end = { phases.Over };

    fn call(&self, alloc: Global) -> Result<Option<LentCall<'_>>, AllocError> {
        match self {
            Phase::Create { making } => {
                let path = making.next.path.copy(alloc)?;
                let bytes = making.next.bytes.as_bytes();
                Ok(Some(LentCall::Create { path, bytes }))
            }
            Phase::Publish { publishing } => {
                let after = publishing.after.copy(alloc)?;
                let path = publishing.path.copy(alloc)?;
                let bytes = publishing.bytes.as_bytes();
                Ok(Some(LentCall::Publish { after, path, bytes }))
            }
            Phase::Published | Phase::Lost | Phase::Over => Ok(None),
        }
    }

    fn next(self, _alloc: Global, answer: Answer) -> Result<Phase, Refusal> {
        match (self, answer) {
            (Phase::Create { making }, Answer::Made(made)) => after_create(making, made),
            (Phase::Publish { publishing }, Answer::Published(published)) => {
                drop(publishing);
                Ok(after_publish(published))
            }
            _ => unreachable!(),
        }
    }

    fn over() -> Phase {
        Phase::Over
    }
}

/// The phase in which the next of these files is to be created, or all were.
pub(crate) fn create_next(publishing: Publishing, files: VecDeque<CommitFile>) -> Phase
    ensures { result ≡ create_next publishing files.items }
{
    let mut rest = files;
    match rest.pop_front() {
        Some(next) => Phase::Create {
            making: Making {
                publishing,
                next,
                rest,
            },
        },
        None => {
            drop(rest);
            Phase::Publish { publishing }
        }
    }
}

/// What follows once the create of a file was answered. It takes no memory.
fn after_create(making: Making, made: Made) -> Result<Phase, Refusal>
    ensures goes { IfOk result (Goes (phases.Create making) (answers.Made made)) }
    ensures refuses { IfErr result (Shown (phases.Create making) (answers.Made made)) }
{
    let Making {
        publishing,
        next,
        rest,
    } = making;
    let CommitFile { path, bytes } = next;
    drop(bytes);
    match made {
        Made::Created => {
            drop(path);
            Ok(create_next(publishing, rest))
        }
        Made::Exists => {
            drop(publishing);
            drop(rest);
            Err(Refusal::SessionUsed { path })
        }
    }
}

/// The phase once the publish was answered. It takes no memory.
fn after_publish(published: Published) -> Phase
    ensures { result ≡ after_publish published }
{
    match published {
        Published::Created => Phase::Published,
        Published::Exists | Published::AfterGone => Phase::Lost,
    }
}

impl Phase {
    /// What a step that went on has reached.
    pub fn reached(&self) -> PutStep
        ensures { result ≡ reached_at self.now }
    {
        match self {
            Phase::Published => PutStep::Published,
            Phase::Lost => PutStep::Lost,
            _ => PutStep::More,
        }
    }
}
