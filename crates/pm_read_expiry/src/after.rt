//! What follows the answers to the calls of a reader of what an expiry needs to know.
//!
//! What isn't handed on is dropped by name, as in `pm_read_table`.

ghost use Rattle.std.specs.Prelude.{◌≡◌, ◌⊎◌, ◌<◌, length, IfErr, IfOk, IsSomeAnd};
ghost use Rattle.pm_store.specs.Answers.{MayAnswer};
ghost use Rattle.pm_store.specs.declared.answer.Answer.TheVariants as answers;
ghost use Rattle.pm_values.specs.declared.refusal.Refusal.TheVariants as refusals;
ghost use Rattle.pm_snapshots.specs.Lister as snapshots;
ghost use Rattle.pm_snapshots.specs.Lister.{lines_of};
ghost use Rattle.pm_snapshots.specs.declared.phase.Phase.TheVariants as listers;
ghost use Rattle.pm_consumers.specs.Lister as consuming;
ghost use Rattle.pm_read_expiry.specs.Found.{IsAsking, IsFoundIn};
ghost use Rattle.pm_read_expiry.specs.Reader.{AfterConsumers, AfterSnapshots, AfterTimes, Goes, HasNext, IsListOf};
ghost use Rattle.pm_read_expiry.specs.Reader.{IsReader, Shown};
ghost use Rattle.pm_read_expiry.specs.Times.{times_of};
ghost use Rattle.pm_read_expiry.specs.declared.phase.Phase.TheVariants as phases;

use crate::asking::{Asking, Found, Listed};
use crate::phase::Phase;
use crate::times::{first_id, last_chain, last_id, least_next, times_of};
use pm_base::Txt;
use pm_consumers::{Lister as ConsumerLister, consumer_lister, into_consumers};
use pm_expire_end::{end_law, expire_end};
use pm_machine::Machine;
use pm_snapshots::{Lister, Phase as ListerPhase, SnapshotLine, is_list_done};
use pm_store::Answer;
use pm_values::Refusal;
use std::alloc::Global;

/// The phase once the snapshots were listed.
pub(crate) fn after_snapshots(
    alloc: Global,
    asking: Asking,
    lister: Lister,
    answer: Answer,
) -> Result<Phase, Refusal>
    requires may { IsSomeAnd (snapshots.next_call lister) (λ call. MayAnswer call answer) }
    requires asking { IsAsking asking }
    requires lister { lister ≡ listers.List asking.schema }
    ensures goes { IfOk result (Goes (phases.Snapshots asking lister) answer) }
    ensures is_reader { IfOk result IsReader }
    ensures refuses { IfErr result (Shown (phases.Snapshots asking lister) answer) }
{
    let mut lister = lister;
    match lister.take(alloc, answer) {
        Ok(()) => Ok(with_snapshots(alloc, asking, lister)),
        Err(refusal) => {
            drop(asking);
            drop(lister);
            Err(refusal)
        }
    }
}

/// The phase with this lister of snapshots: the floors are to be listed, or nothing is where no snapshot was.
fn with_snapshots(alloc: Global, asking: Asking, lister: Lister) -> Phase
    requires asking { IsAsking asking }
    requires lister { IsListOf asking lister }
    ensures goes { AfterSnapshots asking lister result }
    ensures is_reader { IsReader result }
{
    if is_list_done(&lister) {
        drop(lister);
        let Asking { schema, .. } = asking;
        Phase::Ready {
            found: Found {
                schema,
                first: 0,
                last: 0,
                end: 0,
                floors: Vec::new(alloc),
            },
        }
    } else {
        Phase::Floors { asking, lister }
    }
}

/// The phase once the floors were listed.
pub(crate) fn after_floors(asking: Asking, lister: Lister, floors: Vec<Txt>) -> Phase
    requires asking { IsAsking asking }
    requires lister { HasNext asking lister }
    ensures goes { Goes (phases.Floors asking lister) (answers.Listed floors) result }
    ensures is_reader { IsReader result }
{
    Phase::Consumers {
        listed: Listed {
            asking,
            lister,
            floors,
        },
        consumers: consumer_lister(),
    }
}

/// The phase once the lister of consumers made a call.
pub(crate) fn after_consumers(
    alloc: Global,
    listed: Listed,
    consumers: ConsumerLister,
    answer: Answer,
) -> Result<Phase, Refusal>
    requires may { IsSomeAnd (consuming.next_call consumers) (λ call. MayAnswer call answer) }
    requires asking { IsAsking listed.asking }
    requires lister { HasNext listed.asking listed.lister }
    ensures goes { IfOk result (Goes (phases.Consumers listed consumers) answer) }
    ensures is_reader { IfOk result IsReader }
    ensures refuses { IfErr result (Shown (phases.Consumers listed consumers) answer) }
{
    let mut consumers = consumers;
    match consumers.take(alloc, answer) {
        Ok(()) => Ok(with_consumers(listed, consumers)),
        Err(refusal) => {
            drop(listed);
            drop(consumers);
            Err(refusal)
        }
    }
}

/// The phase with this lister of consumers: the snapshots are to be read once all consumers were.
fn with_consumers(listed: Listed, consumers: ConsumerLister) -> Phase
    requires asking { IsAsking listed.asking }
    requires lister { HasNext listed.asking listed.lister }
    requires left { consuming.IsDone consumers ⊎ (0 < consuming.calls_left consumers) }
    ensures goes { AfterConsumers listed consumers result }
    ensures is_reader { IsReader result }
{
    if pm_consumers::is_list_done(&consumers) {
        let consumers = into_consumers(consumers);
        let next = least_next(consumers.as_slice());
        drop(consumers);
        Phase::Times { listed, next }
    } else {
        Phase::Consumers { listed, consumers }
    }
}

/// The phase once a snapshot was read.
pub(crate) fn after_times(
    alloc: Global,
    listed: Listed,
    next: Option<u64>,
    answer: Answer,
) -> Result<Phase, Refusal>
    requires may { IsSomeAnd (snapshots.next_call listed.lister) (λ call. MayAnswer call answer) }
    requires asking { IsAsking listed.asking }
    requires lister { HasNext listed.asking listed.lister }
    ensures goes { IfOk result (Goes (phases.Times listed next) answer) }
    ensures is_reader { IfOk result IsReader }
    ensures refuses { IfErr result (Shown (phases.Times listed next) answer) }
{
    let Listed {
        asking,
        lister,
        floors,
    } = listed;
    let mut lister = lister;
    match lister.take(alloc, answer) {
        Ok(()) => with_times(
            alloc,
            Listed {
                asking,
                lister,
                floors,
            },
            next,
        ),
        Err(refusal) => {
            drop(asking);
            drop(lister);
            drop(floors);
            Err(refusal)
        }
    }
}

/// The phase with this lister of snapshots: all is known once they were read.
fn with_times(alloc: Global, listed: Listed, next: Option<u64>) -> Result<Phase, Refusal>
    requires asking { IsAsking listed.asking }
    requires lister { IsListOf listed.asking listed.lister }
    requires some { 0 < length (lines_of listed.lister) }
    ensures goes { IfOk result (AfterTimes listed.asking listed.lister listed.floors next) }
    ensures is_reader { IfOk result IsReader }
    ensures memory { IfErr result (λ refusal. (refusal ≡ refusals.Memory) × snapshots.IsDone listed.lister) }
{
    end_law();
    if is_list_done(&listed.lister) {
        match times_of(alloc, lines_of(&listed.lister)) {
            Ok(times) => Ok(Phase::Ready {
                found: found_in(listed, next, times),
            }),
            Err(_) => {
                drop(listed);
                Err(Refusal::Memory)
            }
        }
    } else {
        Ok(Phase::Times { listed, next })
    }
}

/// The lines of the snapshots that a lister has read.
fn lines_of(lister: &Lister) -> &[SnapshotLine]
    requires { snapshots.IsDone lister.now }
    ensures { result.now ≡ lines_of lister.now }
{
    match lister.phase() {
        ListerPhase::Read { reading } => reading.lines(),
        _ => unreachable!(),
    }
}

/// What is found where these are the times of all snapshots.
fn found_in(listed: Listed, next: Option<u64>, times: Vec<(u64, i64)>) -> Found
    requires asking { IsAsking listed.asking }
    requires some { 0 < length times.items }
    ensures { IsFoundIn listed.asking times.items next listed.floors.items result }
{
    let Listed {
        asking,
        lister,
        floors,
    } = listed;
    drop(lister);
    let chain = last_chain(times.as_slice());
    let (first, last) = (first_id(chain), last_id(chain));
    let end = expire_end(chain, &asking.keep, asking.now, next);
    drop(times);
    let Asking { schema, .. } = asking;
    Found {
        schema,
        first,
        last,
        end,
        floors,
    }
}
