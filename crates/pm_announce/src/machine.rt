//! The phases of an announcer, and what they mean.

ghost use Rattle.std.specs.Prelude.{◌≡◌, ◌⊎◌, ◌<◌, IfErr, IfOk, IsSomeAnd};
ghost use Rattle.pm_store.specs.Answers.{MayAnswer};
ghost use Rattle.pm_store.specs.declared.answer.Answer.TheVariants as answers;
ghost use Rattle.pm_consumers.specs.Lister as consuming;
ghost use Rattle.pm_consumers.specs.declared.phase.Phase.TheVariants as consumer_listers;
ghost use Rattle.pm_announce.specs.Announcer.{end_after, AfterConsumers, AfterEnd, Goes, IsAnnounced, IsAnnouncer};
ghost use Rattle.pm_announce.specs.Announcer.{IsToAnnounce, Shown};
ghost use Rattle.pm_announce.specs.declared.phase.Phase.TheVariants as phases;

use crate::announcer::AnnounceStep;
use crate::phase::{Announced, Phase};
use crate::tags::{first_tag, unbuilt_tag};
use pm_base::Txt;
use pm_consumer_files::floor_path;
use pm_consumers::{Lister, consumer_lister, into_consumers, is_list_done};
use pm_machine::{Machine, PhaseMeaning};
use pm_read_expiry::{Found, least_next};
use pm_store::{Answer, LentCall};
use pm_values::Refusal;
use std::alloc::{AllocError, Global};

impl pm_machine::Phase for Phase {
    ghost use Rattle.pm_announce.specs.Announcer.{next_call, Goes, IsAnnouncer, Shown};

    ghost call_of = { next_call };

    ghost goes = { Goes };

    ghost shown = { Shown };

    ghost holds = { IsAnnouncer };

    ghost end = { phases.Over };

    fn call(&self, alloc: Global) -> Result<Option<LentCall<'_>>, AllocError> {
        match self {
            Phase::Announce { found } => Ok(Some(LentCall::Create {
                path: floor_path(alloc, found.end)?,
                bytes: b"",
            })),
            Phase::Consumers { consumers, .. } => consumers.call(alloc),
            Phase::Tags { .. } => Ok(Some(LentCall::List {
                folder: Txt::from_str(alloc, "tag")?,
            })),
            Phase::Announced { .. } | Phase::Over => Ok(None),
        }
    }

    fn over() -> Phase {
        Phase::Over
    }

    fn next(self, alloc: Global, answer: Answer) -> Result<Phase, Refusal> {
        match (self, answer) {
            (Phase::Announce { found }, Answer::Made(_)) => Ok(after_floor(found)),
            (Phase::Consumers { found, consumers }, answer) => {
                after_consumers(alloc, found, consumers, answer)
            }
            (Phase::Tags { announced }, Answer::Listed(files)) => {
                after_tags(alloc, announced, files)
            }
            _ => unreachable!(),
        }
    }
}

/// The phase once the floor is there, whether it was created or not: the consumers are to be read.
fn after_floor(found: Found) -> Phase
    requires { IsToAnnounce found }
    ensures goes { result ≡ phases.Consumers found consumer_listers.List }
    ensures is_announcer { IsAnnouncer result }
{
    Phase::Consumers {
        found,
        consumers: consumer_lister(),
    }
}

/// The phase once the lister of consumers made a call.
fn after_consumers(
    alloc: Global,
    found: Found,
    consumers: Lister,
    answer: Answer,
) -> Result<Phase, Refusal>
    requires may { IsSomeAnd (consuming.next_call consumers) (λ call. MayAnswer call answer) }
    requires found { IsToAnnounce found }
    ensures goes { IfOk result (Goes (phases.Consumers found consumers) answer) }
    ensures is_announcer { IfOk result IsAnnouncer }
    ensures refuses { IfErr result (Shown (phases.Consumers found consumers) answer) }
{
    let mut consumers = consumers;
    match consumers.take(alloc, answer) {
        Ok(()) => Ok(with_consumers(found, consumers)),
        Err(refusal) => {
            drop(found);
            drop(consumers);
            Err(refusal)
        }
    }
}

/// The phase with this lister of consumers: the end is known once all were read.
fn with_consumers(found: Found, consumers: Lister) -> Phase
    requires found { IsToAnnounce found }
    requires left { consuming.IsDone consumers ⊎ (0 < consuming.calls_left consumers) }
    ensures goes { AfterConsumers found consumers result }
    ensures is_announcer { IsAnnouncer result }
{
    if is_list_done(&consumers) {
        let consumers = into_consumers(consumers);
        let end = end_after(&found, least_next(consumers.as_slice()));
        drop(consumers);
        with_end(Announced { found, end })
    } else {
        Phase::Consumers { found, consumers }
    }
}

/// The phase once the end is known: the tags are to be listed where a snapshot is to go still.
fn with_end(announced: Announced) -> Phase
    requires { IsAnnounced announced }
    ensures goes { AfterEnd announced result }
    ensures is_announcer { IsAnnouncer result }
{
    if announced.found.first < announced.end {
        Phase::Tags { announced }
    } else {
        Phase::Announced { announced }
    }
}

/// The phase once the tags were listed: none may be there.
fn after_tags(alloc: Global, announced: Announced, files: Vec<Txt>) -> Result<Phase, Refusal>
    requires { IsAnnounced announced }
    ensures goes { IfOk result (Goes (phases.Tags announced) (answers.Listed files)) }
    ensures is_announcer { IfOk result IsAnnouncer }
    ensures refuses { IfErr result (Shown (phases.Tags announced) (answers.Listed files)) }
{
    match first_tag(alloc, files.as_slice()) {
        Ok(None) => Ok(Phase::Announced { announced }),
        Ok(Some(name)) => {
            drop(announced);
            Err(unbuilt_tag(alloc, name))
        }
        Err(_) => {
            drop(announced);
            Err(Refusal::Memory)
        }
    }
}

/// The end, lowered to the least that consumers read next, but not below the first.
fn end_after(found: &Found, next: Option<u64>) -> u64
    ensures { result ≡ end_after found.now next }
{
    match next {
        None => found.end,
        Some(next) => found.first.max(found.end.min(next)),
    }
}

impl PhaseMeaning for Phase {
    ghost use Rattle.pm_announce.specs.Announcer.{calls_left, reached_at, Reaches};
    ghost use Rattle.pm_announce.specs.Meaning as meaning;
    ghost use Rattle.pm_announce.specs.Meaning.{KnowsBeside, MakesBeside, StandsBeside, TellsBeside};
    ghost use Rattle.pm_announce.specs.Trace.{Did, Shows};
    ghost use Rattle.pm_read_expiry.specs.declared.asking.Found as founds;

    type Step = AnnounceStep;

    ghost History = { meaning.Beside };

    ghost Folder = { StandsBeside };

    ghost Change = { MakesBeside };

    ghost knows = { KnowsBeside };

    ghost tells = { TellsBeside };

    ghost Asked = { founds.Found };

    ghost did = { Did };

    ghost shows = { Shows };

    ghost calls_left = { calls_left };

    ghost reached_at = { reached_at };

    ghost reaches = { Reaches };

    ghost keeps = { λ old new. Unit {0} };

    fn reached(&self) -> AnnounceStep {
        match self {
            Phase::Announced { .. } => AnnounceStep::Ready,
            _ => AnnounceStep::More,
        }
    }
}
