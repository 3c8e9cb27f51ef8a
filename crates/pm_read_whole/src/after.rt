//! What follows the answers to the calls of a reader of a whole view.
//!
//! What isn't handed on is dropped by name, as in `pm_read_table`.

ghost use Rattle.std.specs.Prelude.{◌≡◌, ◌⊎◌, ◌<◌, IfErr, IfOk, IsSomeAnd};
ghost use Rattle.pm_schema.specs.Again.{IsDeclared};
ghost use Rattle.pm_store.specs.Answers.{MayAnswer};
ghost use Rattle.pm_read_table.specs.View.{HaveGroups};
ghost use Rattle.pm_read_log.specs.LogReader as logs;
ghost use Rattle.pm_values.specs.declared.refusal.Refusal.TheVariants as refusals;
ghost use Rattle.pm_read_whole.specs.Whole.{AfterLog, Goes, IsLogOf, IsOpened, IsWholeView, IsWhole, Shown};
ghost use Rattle.pm_read_whole.specs.declared.phase.Phase.TheVariants as phases;

use crate::copy::copied;
use crate::phase::Phase;
use pm_machine::Machine;
use pm_read_log::{LogReader, into_log, is_log_ready, opened_log};
use pm_read_table::{OpensView, View, ViewReader};
use pm_store::Answer;
use pm_values::Refusal;
use std::alloc::{AllocError, Global};

impl OpensView for Phase {
    ghost use Rattle.pm_read_whole.specs.Whole.{BeginsLog, IsWhole, IsWholeOf};

    ghost holds = { IsWhole };

    ghost reads = { IsWholeOf };

    ghost holding = { λ m. phases.View m };

    ghost opens = { BeginsLog };

    fn hold(reader: ViewReader) -> Phase {
        Phase::View { reader }
    }

    fn open(alloc: Global, view: View) -> Result<Phase, Refusal> {
        match log_of(alloc, &view) {
            Ok(reader) => Ok(after_log(view, reader)),
            Err(_) => {
                drop(view);
                Err(Refusal::Memory)
            }
        }
    }
}

/// The reader of the changelog of a view's snapshot.
fn log_of(alloc: Global, view: &View) -> Result<LogReader, AllocError>
    requires whole { IsWholeView view.now }
    requires declared { IsDeclared view.now.schema }
    ensures { IfOk result (IsOpened view.now) }
{
    match &view.snapshot {
        Some(snapshot) => {
            let snapshot = copied(alloc, snapshot)?;
            match view.schema.copy(alloc) {
                Ok(schema) => opened_log(alloc, schema, snapshot),
                Err(error) => {
                    drop(snapshot);
                    Err(error)
                }
            }
        }
        None => unreachable!(),
    }
}

/// The phase after an answer to a call of the changelog's reader.
pub(crate) fn after_answer(
    alloc: Global,
    view: View,
    reader: LogReader,
    answer: Answer,
) -> Result<Phase, Refusal>
    requires may { IsSomeAnd (logs.next_call reader) (λ call. MayAnswer call answer) }
    requires whole { IsWholeView view }
    requires groups { HaveGroups view.schema view.live.items }
    requires of { IsLogOf view reader }
    ensures goes { IfOk result (Goes (phases.Log view reader) answer) }
    ensures is_whole { IfOk result IsWhole }
    ensures refuses { IfErr result (Shown (phases.Log view reader) answer) }
{
    let mut reader = reader;
    match reader.take(alloc, answer) {
        Ok(()) => Ok(after_log(view, reader)),
        Err(refusal) => {
            drop(view);
            drop(reader);
            Err(refusal)
        }
    }
}

/// The phase with this reader of the changelog of the view's snapshot.
fn after_log(view: View, reader: LogReader) -> Phase
    requires left { logs.IsReady reader ⊎ (0 < logs.calls_left reader) }
    requires whole { IsWholeView view }
    requires groups { HaveGroups view.schema view.live.items }
    requires of { IsLogOf view reader }
    ensures goes { AfterLog view reader result }
    ensures is_whole { IsWhole result }
{
    if is_log_ready(&reader) {
        Phase::Ready {
            view,
            log: into_log(reader),
        }
    } else {
        Phase::Log { view, reader }
    }
}
