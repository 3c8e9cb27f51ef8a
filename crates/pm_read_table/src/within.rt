//! A reader of a view as the first part of another machine.

ghost use Rattle.std.specs.Prelude.{◌≡◌, ◌⊎◌, ◌<◌, IfOk, IfErr, IsSomeAnd};
ghost use Rattle.pm_schema.specs.Again.{IsDeclared};
ghost use Rattle.pm_store.specs.Answers.{MayAnswer};
ghost use Rattle.pm_store.specs.declared.answer.Answer.{Answer as AnswerView};
ghost use Rattle.pm_read_table.specs.Reader.{calls_left, next_call, FailsToOpen, Goes, IsReady, Shown, WithReader};
ghost use Rattle.pm_read_table.specs.View.{HasFolders, HaveGroups};
ghost use Rattle.pm_read_table.specs.declared.phase.Phase.{Phase as ReaderView};
ghost use Rattle.pm_read_table.specs.declared.phase.Phase.TheVariants as readers;
ghost use Rattle.pm_read_table.specs.declared.view.View.{View as ViewView};
ghost use Rattle.pm_values.specs.declared.refusal.Refusal.TheVariants as refusals;

use crate::reader::{ViewReader, into_view, is_view_ready};
use crate::view::View;
use pm_machine::Machine;
use pm_store::Answer;
use pm_values::Refusal;
use std::alloc::Global;

/// Phases of a machine that reads a view first, and goes on with it once it is ready.
pub trait OpensView: Drop {
    /// What holds in each phase.
    ghost holds: { Self → Type 0 };

    /// What is so of its reader.
    ghost reads: { ReaderView → Type 0 };

    /// The phase with the reader.
    ghost holding: { ReaderView → Self };

    /// What the view leads to.
    ghost opens: { ViewView → Self → Type 0 };

    /// The phase with this reader, which has a call left.
    fn hold(reader: ViewReader) -> Self
        requires reads { reads reader }
        requires left { 0 < calls_left reader }
        ensures phase { result ≡ holding reader }
        ensures holds { holds result };

    /// The phase once this view is ready.
    fn open(alloc: Global, view: View) -> Result<Self, Refusal>
        requires reads { reads (readers.Ready view) }
        requires folders { HasFolders view }
        requires groups { HaveGroups view.schema view.live.items }
        requires declared { IsDeclared view.schema }
        ensures opens { IfOk result (opens view) }
        ensures holds { IfOk result holds }
        ensures memory { IfErr result (λ e. e ≡ refusals.Memory) };
}

/// The phase after an answer to a call of the view's reader.
pub fn after_view<P: OpensView>(
    alloc: Global,
    reader: ViewReader,
    answer: Answer,
) -> Result<P, Refusal>
    requires may { IsSomeAnd (next_call reader) (λ call. MayAnswer call answer) }
    requires reads { P.reads reader }
    requires stays { (m : ReaderView) (answer : AnswerView) (new : ReaderView) → Goes m answer new → P.reads m
        → P.reads new }
    ensures goes { IfOk result (λ later. (new : ReaderView) × Goes reader answer new
        × WithReader P.holding P.opens new later) }
    ensures holds { IfOk result P.holds }
    ensures refuses { IfErr result (λ refusal. FailsToOpen P.reads reader answer refusal
        ⊎ Shown reader answer refusal) }
{
    let mut reader = reader;
    match reader.take(alloc, answer) {
        Ok(()) => with_reader(alloc, reader),
        Err(refusal) => {
            drop(reader);
            Err(refusal)
        }
    }
}

/// The phase with this reader, or that once its view is ready.
fn with_reader<P: OpensView>(alloc: Global, reader: ViewReader) -> Result<P, Refusal>
    requires left { IsReady reader ⊎ (0 < calls_left reader) }
    requires reads { P.reads reader }
    ensures goes { IfOk result (WithReader P.holding P.opens reader) }
    ensures holds { IfOk result P.holds }
    ensures memory { IfErr result (λ e. (e ≡ refusals.Memory) × IsReady reader) }
{
    if is_view_ready(&reader) {
        P::open(alloc, into_view(reader))
    } else {
        Ok(P::hold(reader))
    }
}
