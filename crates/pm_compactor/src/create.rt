//! How the files that were made are created, before the commit's own.

ghost use Rattle.std.specs.Prelude.{IfErr, IfOk};
ghost use Rattle.pm_store.specs.declared.answer.Answer.TheVariants as answers;
ghost use Rattle.pm_compactor.specs.Compactor.{CreatesNext, Goes, Shown};
ghost use Rattle.pm_compactor.specs.declared.phase.Phase.TheVariants as phases;

use crate::phase::Phase;
use pm_commit::Committer;
use pm_put::CommitFile;
use pm_store::Made;
use pm_values::Refusal;
use std::collections::VecDeque;

/// The phase in which the next of these files is to be created, or all were.
pub(crate) fn create_next(committer: Committer, files: VecDeque<CommitFile>) -> Phase
    ensures { CreatesNext committer files.items result }
{
    let mut rest = files;
    match rest.pop_front() {
        Some(next) => Phase::Create {
            committer,
            next,
            rest,
        },
        None => {
            drop(rest);
            Phase::Commit { committer }
        }
    }
}

/// What follows once the create of a file was answered. It takes no memory, and lets the file's bytes go.
pub(crate) fn after_create(
    committer: Committer,
    next: CommitFile,
    rest: VecDeque<CommitFile>,
    made: Made,
) -> Result<Phase, Refusal>
    ensures goes { IfOk result (Goes (phases.Create committer next rest) (answers.Made made)) }
    ensures refuses { IfErr result (Shown (phases.Create committer next rest) (answers.Made made)) }
{
    let CommitFile { path, bytes } = next;
    drop(bytes);
    match made {
        Made::Created => {
            drop(path);
            Ok(create_next(committer, rest))
        }
        Made::Exists => {
            drop(committer);
            drop(rest);
            Err(Refusal::SessionUsed { path })
        }
    }
}
