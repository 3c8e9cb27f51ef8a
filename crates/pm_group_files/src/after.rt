//! What follows the answers to the calls of a reader of files.
//!
//! What isn't handed on is dropped by name, as in `pm_read_table`.

ghost use Rattle.std.specs.Prelude.{◌≡◌, IfErr, IfOk};
ghost use Rattle.pm_store.specs.declared.answer.Answer.TheVariants as answers;
ghost use Rattle.pm_group_files.specs.Reader.{read_next, Goes, Shown};
ghost use Rattle.pm_group_files.specs.declared.phase.Phase.TheVariants as phases;

use crate::collected::Collected;
use crate::job::Job;
use crate::phase::Phase;
use crate::reading::Reading;
use pm_base::{Blob, Txt};
use pm_values::Refusal;
use std::alloc::Global;
use std::collections::VecDeque;

/// The phase in which the next of these files is to be read, or all were.
pub(crate) fn read_next(id: u64, collected: Collected, left: VecDeque<Job>) -> Phase
    ensures { result ≡ read_next id collected left.items }
{
    let mut rest = left;
    match rest.pop_front() {
        Some(next) => Phase::Files {
            reading: Reading {
                id,
                collected,
                next,
                rest,
            },
        },
        None => {
            drop(rest);
            Phase::Ready { collected }
        }
    }
}

/// The phase once this was found at the path of the next file.
pub(crate) fn after_file(
    alloc: Global,
    reading: Reading,
    found: Option<Blob>,
) -> Result<Phase, Refusal>
    ensures goes { IfOk result (Goes (phases.Files reading) (answers.Found found)) }
    ensures refuses { IfErr result (Shown (phases.Files reading) (answers.Found found)) }
{
    let Reading {
        id,
        collected,
        next,
        rest,
    } = reading;
    match found {
        Some(bytes) => {
            let mut collected = collected;
            let taken = collected.take(alloc, &next, bytes);
            drop(next);
            match taken {
                Ok(()) => Ok(read_next(id, collected, rest)),
                Err(refusal) => {
                    drop(collected);
                    drop(rest);
                    Err(refusal)
                }
            }
        }
        None => {
            drop(collected);
            drop(rest);
            let Job { path, .. } = next;
            Ok(Phase::Again { id, path })
        }
    }
}

/// The refusal once this was found at the path of the snapshot, after the file at a path that it names was absent.
pub(crate) fn after_again(id: u64, path: Txt, found: Option<Blob>) -> Refusal
    ensures { Shown (phases.Again id path) (answers.Found found) result }
{
    match found {
        Some(_) => Refusal::Damaged { path, place: 0 },
        None => Refusal::Expired { id },
    }
}
