//! The times of snapshots that were read, and the least that consumers read next.

ghost use Rattle.std.specs.Prelude.{◌≡◌, ◌↔◌, ◌+◌, ◌<◌, IfOk, IsTrue, length};
ghost use Rattle.pm_expire_end.specs.Expiry.{first_id, last_id};
ghost use Rattle.pm_read_expiry.specs.Times.{lesser, times_of, BeginsChain, IsChain, IsLeastNext, Joins};

use pm_consumer_files::NamedConsumer;
use pm_snapshots::SnapshotLine;
use std::alloc::{AllocError, Global};

/// The least number of consumers, if there is one.
pub fn least_next(consumers: &[NamedConsumer]) -> Option<u64>
    ensures { IsLeastNext consumers.now result }
{
    let mut least = None;
    for named in consumers {
        least = Some(lesser(least, named.consumer.next));
    }
    least
}

/// The lesser of a number, if there is one, and another.
fn lesser(least: Option<u64>, next: u64) -> u64
    ensures { result ≡ lesser least next }
{
    match least {
        Some(least) => least.min(next),
        None => next,
    }
}

/// The id and the time of each.
pub(crate) fn times_of(alloc: Global, lines: &[SnapshotLine]) -> Result<Vec<(u64, i64)>, AllocError>
    ensures { IfOk result (λ times. times.items ≡ times_of lines.now) }
{
    let mut times = Vec::new(alloc);
    for line in lines {
        times.push((line.id, line.time))?;
    }
    Ok(times)
}

/// The first id.
pub(crate) fn first_id(times: &[(u64, i64)]) -> u64
    requires { 0 < length times.now }
    ensures { result ≡ first_id times.now }
{
    times[0].0
}

/// The last id.
pub(crate) fn last_id(times: &[(u64, i64)]) -> u64
    requires { 0 < length times.now }
    ensures { result ≡ last_id times.now }
{
    times[times.len() - 1].0
}

/// The last snapshots, as many as follow each other by one.
pub(crate) fn last_chain(times: &[(u64, i64)]) -> &[(u64, i64)]
    requires { 0 < length times.now }
    ensures { IsChain times.now result.now }
{
    times.split_at(first_of_chain(times)).1
}

/// The index of the first snapshot from which on none lacks.
fn first_of_chain(times: &[(u64, i64)]) -> usize
    requires { 0 < length times.now }
    ensures { BeginsChain times.now result }
{
    let mut first = times.len() - 1;
    while joins(times, first) {
        first -= 1;
    }
    first
}

/// Whether the snapshot before that at the index is the one below it.
fn joins(times: &[(u64, i64)], index: usize) -> bool
    requires { index < length times.now }
    ensures { IsTrue result ↔ Joins times.now index }
{
    if 0 < index {
        is_next(times[index - 1].0, times[index].0)
    } else {
        false
    }
}

/// Whether an id is one above another.
fn is_next(id: u64, next: u64) -> bool
    ensures { IsTrue result ↔ (id + 1 ≡ next) }
{
    id < next && next - id == 1
}
