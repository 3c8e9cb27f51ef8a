//! What follows the answers to the calls of an expirer's parts, but for those that read views.
//!
//! What isn't handed on is dropped by name, as in `pm_read_table`.

ghost use Rattle.std.specs.Prelude.{◌≡◌, ◌⊎◌, ◌↔◌, ◌<◌, IfErr, IfOk, IsSomeAnd, IsTrue};
ghost use Rattle.pm_store.specs.Answers.{MayAnswer};
ghost use Rattle.pm_values.specs.declared.refusal.Refusal.TheVariants as refusals;
ghost use Rattle.pm_remove.specs.Remover as removing;
ghost use Rattle.pm_remove.specs.declared.phase.Phase.TheVariants as removers;
ghost use Rattle.pm_read_expiry.specs.Reader as reading;
ghost use Rattle.pm_announce.specs.Announcer as announcing;
ghost use Rattle.pm_expire.specs.Expirer.{AfterAnnounce, AfterRead, AfterRemove, Goes, IsExpirer, Shown};
ghost use Rattle.pm_expire.specs.declared.phase.Phase.TheVariants as phases;

use crate::phase::Phase;
use crate::views::view_next;
use pm_announce::{Announcer, Phase as AnnouncePhase, announcer_of, into_announced};
use pm_expire_paths::Dropping;
use pm_machine::Machine;
use pm_read_expiry::{ExpiryReader, into_found, is_found};
use pm_remove::{Remover, are_removed};
use pm_store::Answer;
use pm_values::Refusal;
use std::alloc::Global;

/// The phase once the reader of what is needed made a call.
pub(crate) fn after_read(
    alloc: Global,
    reader: ExpiryReader,
    answer: Answer,
) -> Result<Phase, Refusal>
    requires may { IsSomeAnd (reading.next_call reader) (λ call. MayAnswer call answer) }
    requires is_reader { reading.IsReader reader }
    ensures goes { IfOk result (Goes (phases.Read reader) answer) }
    ensures is_expirer { IfOk result IsExpirer }
    ensures refuses { IfErr result (Shown (phases.Read reader) answer) }
{
    let mut reader = reader;
    match reader.take(alloc, answer) {
        Ok(()) => Ok(with_reader(reader)),
        Err(refusal) => {
            drop(reader);
            Err(refusal)
        }
    }
}

/// The phase with this reader: its end is announced once it is known, where a snapshot is to go.
fn with_reader(reader: ExpiryReader) -> Phase
    requires left { reading.IsReady reader ⊎ (0 < reading.calls_left reader) }
    ensures goes { AfterRead reader result }
    ensures is_expirer { IsExpirer result }
{
    if is_found(&reader) {
        with_found(reader)
    } else {
        reader.known();
        Phase::Read { reader }
    }
}

/// The phase once what is needed is known.
fn with_found(reader: ExpiryReader) -> Phase
    requires { reading.IsReady reader }
    ensures goes { AfterRead reader result }
    ensures is_expirer { IsExpirer result }
{
    let found = into_found(reader);
    if found.first < found.end {
        Phase::Announce {
            announcer: announcer_of(found),
        }
    } else {
        let (first, last) = (found.end, found.last);
        drop(found);
        Phase::Done { first, last }
    }
}

/// The phase once the announcer made a call.
pub(crate) fn after_announce(
    alloc: Global,
    announcer: Announcer,
    answer: Answer,
) -> Result<Phase, Refusal>
    requires may { IsSomeAnd (announcing.next_call announcer) (λ call. MayAnswer call answer) }
    ensures goes { IfOk result (Goes (phases.Announce announcer) answer) }
    ensures is_expirer { IfOk result IsExpirer }
    ensures refuses { IfErr result (Shown (phases.Announce announcer) answer) }
{
    let mut announcer = announcer;
    match announcer.take(alloc, answer) {
        Ok(()) => with_announcer(alloc, announcer),
        Err(refusal) => {
            drop(announcer);
            Err(refusal)
        }
    }
}

/// The phase with this announcer: the first view is to be read once its end is known, where a snapshot is to go still.
fn with_announcer(alloc: Global, announcer: Announcer) -> Result<Phase, Refusal>
    requires left { announcing.IsReady announcer ⊎ (0 < announcing.calls_left announcer) }
    ensures goes { IfOk result (AfterAnnounce announcer) }
    ensures is_expirer { IfOk result IsExpirer }
    ensures memory { IfErr result (λ e. (e ≡ refusals.Memory) × announcing.IsReady announcer) }
{
    if is_announced(&announcer) {
        with_announced(alloc, announcer)
    } else {
        announcer.known();
        Ok(Phase::Announce { announcer })
    }
}

/// Whether its end is known.
fn is_announced(announcer: &Announcer) -> bool
    ensures { IsTrue result ↔ announcing.IsReady announcer.now }
{
    matches!(announcer.phase(), AnnouncePhase::Announced { .. })
}

/// The phase once the end that was announced is known.
fn with_announced(alloc: Global, announcer: Announcer) -> Result<Phase, Refusal>
    requires { announcing.IsReady announcer }
    ensures goes { IfOk result (AfterAnnounce announcer) }
    ensures is_expirer { IfOk result IsExpirer }
    ensures memory { IfErr result (λ e. e ≡ refusals.Memory) }
{
    let announced = into_announced(announcer);
    if announced.found.first < announced.end {
        let id = announced.found.first;
        match view_next(alloc, announced, Dropping::new(alloc), id) {
            Ok(phase) => Ok(phase),
            Err(_) => Err(Refusal::Memory),
        }
    } else {
        let (first, last) = (announced.end, announced.found.last);
        drop(announced);
        Ok(Phase::Done { first, last })
    }
}

/// The phase once a path was removed.
pub(crate) fn after_remove(
    alloc: Global,
    first: u64,
    last: u64,
    remover: Remover,
    answer: Answer,
) -> Result<Phase, Refusal>
    requires may { IsSomeAnd (removing.next_call remover) (λ call. MayAnswer call answer) }
    ensures goes { IfOk result (Goes (phases.Remove first last remover) answer) }
    ensures is_expirer { IfOk result IsExpirer }
    ensures refuses { IfErr result (Shown (phases.Remove first last remover) answer) }
{
    let mut remover = remover;
    match remover.take(alloc, answer) {
        Ok(()) => Ok(with_remover(first, last, remover)),
        Err(refusal) => {
            drop(remover);
            Err(refusal)
        }
    }
}

/// The phase with this remover: it is done once all paths were removed.
fn with_remover(first: u64, last: u64, remover: Remover) -> Phase
    requires left { (remover ≡ removers.Removed) ⊎ (0 < removing.calls_left remover) }
    ensures goes { AfterRemove first last remover result }
    ensures is_expirer { IsExpirer result }
{
    if are_removed(&remover) {
        drop(remover);
        Phase::Done { first, last }
    } else {
        Phase::Remove {
            first,
            last,
            remover,
        }
    }
}
