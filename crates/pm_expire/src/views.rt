//! What follows the answers to the calls that read an expirer's views.
//!
//! What isn't handed on is dropped by name, as in `pm_read_table`.

ghost use Rattle.std.specs.Prelude.{◌≡◌, ◌⊎◌, ◌<◌, ◌≤◌, IfErr, IfOk, IsSomeAnd};
ghost use Rattle.pm_store.specs.Answers.{MayAnswer};
ghost use Rattle.pm_values.specs.declared.refusal.Refusal.TheVariants as refusals;
ghost use Rattle.pm_expire_paths.specs.Dropping.{Adds};
ghost use Rattle.pm_read_whole.specs.Whole as whole;
ghost use Rattle.pm_announce.specs.Announcer.{IsAnnounced};
ghost use Rattle.pm_expire.specs.Expirer.{view_next, AfterAdding, AfterView, AreRemovals, AreViews, Goes, IsExpirer};
ghost use Rattle.pm_expire.specs.Expirer.{IsRead, IsViewOf, Shown};
ghost use Rattle.pm_expire.specs.declared.phase.Phase.TheVariants as phases;

use crate::phase::{Phase, Views};
use pm_announce::Announced;
use pm_base::Txt;
use pm_expire_paths::{Dropping, Expiring, floors_below, removals};
use pm_machine::Machine;
use pm_read_whole::{WholeReader, is_whole_ready, paths_in, whole_at};
use pm_remove::new_remover;
use pm_store::Answer;
use pm_values::Refusal;
use std::alloc::{AllocError, Global};
use std::collections::VecDeque;

/// The phase in which the whole view of a snapshot is to be read.
pub(crate) fn view_next(
    alloc: Global,
    announced: Announced,
    dropping: Dropping,
    id: u64,
) -> Result<Phase, AllocError>
    requires announced { IsAnnounced announced }
    requires some { announced.found.first < announced.end }
    requires from { announced.found.first ≤ id }
    requires to { id ≤ announced.end }
    ensures is { IfOk result (λ phase. phase ≡ view_next announced dropping id) }
    ensures is_expirer { IfOk result IsExpirer }
{
    match announced.found.schema.copy(alloc) {
        Ok(schema) => {
            let reader = whole_at(alloc, schema, id);
            reader.known();
            Ok(Phase::View {
                views: Views {
                    announced,
                    dropping,
                    id,
                },
                reader,
            })
        }
        Err(error) => {
            drop(announced);
            drop(dropping);
            Err(error)
        }
    }
}

/// The phase once the reader of a view made a call.
pub(crate) fn after_view(
    alloc: Global,
    views: Views,
    reader: WholeReader,
    answer: Answer,
) -> Result<Phase, Refusal>
    requires may { IsSomeAnd (whole.next_call reader) (λ call. MayAnswer call answer) }
    requires views { AreViews views }
    requires read { IsRead views reader }
    ensures goes { IfOk result (Goes (phases.View views reader) answer) }
    ensures is_expirer { IfOk result IsExpirer }
    ensures refuses { IfErr result (Shown (phases.View views reader) answer) }
{
    let mut reader = reader;
    match reader.take(alloc, answer) {
        Ok(()) => with_view(alloc, views, reader),
        Err(refusal) => {
            drop(views);
            drop(reader);
            Err(refusal)
        }
    }
}

/// The phase with this reader of a view: its paths are added once it is ready.
fn with_view(alloc: Global, views: Views, reader: WholeReader) -> Result<Phase, Refusal>
    requires views { AreViews views }
    requires of { IsViewOf views.announced.found.schema views.id reader }
    requires left { whole.IsReady reader ⊎ (0 < whole.calls_left reader) }
    ensures goes { IfOk result (AfterView views reader) }
    ensures is_expirer { IfOk result IsExpirer }
    ensures memory { IfErr result (λ e. (e ≡ refusals.Memory) × whole.IsReady reader) }
{
    reader.known();
    if is_whole_ready(&reader) {
        match add_view(alloc, views, reader) {
            Ok(phase) => Ok(phase),
            Err(_) => Err(Refusal::Memory),
        }
    } else {
        Ok(Phase::View { views, reader })
    }
}

/// The phase once a view was read.
fn add_view(alloc: Global, views: Views, reader: WholeReader) -> Result<Phase, AllocError>
    requires views { AreViews views }
    requires read { IsRead views reader }
    requires ready { whole.IsReady reader }
    ensures goes { IfOk result (AfterView views reader) }
    ensures is_expirer { IfOk result IsExpirer }
{
    let Views {
        announced,
        dropping,
        id,
    } = views;
    match added(alloc, dropping, reader) {
        Ok(dropping) => go_on(alloc, announced, dropping, id),
        Err(error) => {
            drop(announced);
            Err(error)
        }
    }
}

/// The paths of views, with those of this one.
fn added(alloc: Global, dropping: Dropping, reader: WholeReader) -> Result<Dropping, AllocError>
    requires { whole.IsReady reader }
    ensures { IfOk result (λ d. Adds dropping (whole.paths_of reader) d) }
{
    match paths_in(alloc, &reader) {
        Ok(paths) => {
            drop(reader);
            dropping.add(paths)
        }
        Err(error) => {
            drop(dropping);
            drop(reader);
            Err(error)
        }
    }
}

/// The phase once the paths of a snapshot's view were added: the next view is to be read, or all were.
fn go_on(
    alloc: Global,
    announced: Announced,
    dropping: Dropping,
    id: u64,
) -> Result<Phase, AllocError>
    requires announced { IsAnnounced announced }
    requires some { announced.found.first < announced.end }
    requires from { announced.found.first ≤ id }
    requires to { id ≤ announced.end }
    ensures goes { IfOk result (AfterAdding announced dropping id) }
    ensures is_expirer { IfOk result IsExpirer }
{
    if id < announced.end {
        view_next(alloc, announced, dropping, id + 1)
    } else {
        remove_all(alloc, announced, dropping)
    }
}

/// The phase once all views were added: what follows from them is to be removed.
fn remove_all(alloc: Global, announced: Announced, dropping: Dropping) -> Result<Phase, AllocError>
    requires announced { IsAnnounced announced }
    requires some { announced.found.first < announced.end }
    ensures goes { IfOk result (AfterAdding announced dropping announced.end) }
    ensures is_expirer { IfOk result IsExpirer }
{
    match all_removals(alloc, &announced, dropping) {
        Ok(paths) => {
            let (first, last) = (announced.end, announced.found.last);
            drop(announced);
            Ok(Phase::Remove {
                first,
                last,
                remover: new_remover(paths),
            })
        }
        Err(error) => {
            drop(announced);
            Err(error)
        }
    }
}

/// All paths that are to be removed, in their order.
fn all_removals(
    alloc: Global,
    announced: &Announced,
    dropping: Dropping,
) -> Result<VecDeque<Txt>, AllocError>
    requires { announced.now.found.first ≤ announced.now.end }
    ensures { IfOk result (λ paths. AreRemovals announced.now dropping paths.items) }
{
    let found = &announced.found;
    let expiring = Expiring {
        first: found.first,
        end: announced.end,
        own: found.end,
    };
    let floors = floors_below(alloc, found.floors.as_slice(), found.end)?;
    let dropped = dropping.into_dropped(alloc)?;
    let paths = removals(alloc, &found.schema, expiring, dropped, floors.as_slice())?;
    let _ = paths.len();
    Ok(paths)
}
