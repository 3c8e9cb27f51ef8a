//! The end of an expiry.

ghost use Rattle.std.specs.Prelude.{◌≡◌, ◌≤◌};
ghost use Rattle.pm_expire_end.specs.Expiry.{AreConsecutive, expire_end_of, first_id, first_recent, highest, is_recent};
ghost use Rattle.pm_expire_end.specs.Expiry.{last_id, lowest, since};

use crate::keep::Keep;

/// The least snapshot that is kept, of those with these ids and times in milliseconds, by rising id. `least_next` is
/// the least snapshot that a consumer reads next, if there is a consumer.
pub fn expire_end(times: &[(u64, i64)], keep: &Keep, now: i64, least_next: Option<u64>) -> u64
    requires listed { AreConsecutive times.now }
    requires some { 1 ≤ keep.now.min }
    ensures { result ≡ expire_end_of times.now keep.now now least_next }
{
    let first = first_id(times);
    let last = last_id(times);
    let low = lowest(first, last, keep);
    let high = highest(last, keep, least_next);
    if low < u128::from(high) {
        first_recent(times, since(keep, now), low as u64, high)
    } else {
        first.max(high)
    }
}

/// The first id.
fn first_id(times: &[(u64, i64)]) -> u64
    requires { AreConsecutive times.now }
    ensures { result ≡ first_id times.now }
{
    times[0].0
}

/// The last id.
fn last_id(times: &[(u64, i64)]) -> u64
    requires { AreConsecutive times.now }
    ensures { result ≡ last_id times.now }
{
    times[times.len() - 1].0
}

/// The least end that is chosen by time.
fn lowest(first: u64, last: u64, keep: &Keep) -> u128
    ensures { result ≡ lowest first last keep.now }
{
    let above = u128::from(last) + 1;
    u128::from(first).max(above.saturating_sub(u128::from(keep.max)))
}

/// The greatest end.
fn highest(last: u64, keep: &Keep, least_next: Option<u64>) -> u64
    requires { 1 ≤ keep.now.min }
    ensures { result ≡ highest last keep.now least_next }
{
    let spared = last.saturating_sub(keep.min - 1);
    match least_next {
        None => spared,
        Some(next) => spared.min(next),
    }
}

/// The time from which on snapshots are recent.
fn since(keep: &Keep, now: i64) -> i128
    ensures { result ≡ since keep.now now }
{
    i128::from(now) - i128::from(keep.millis)
}

/// The first recent snapshot from a low id up to a high one, or the high one.
fn first_recent(times: &[(u64, i64)], from: i128, low: u64, high: u64) -> u64
    requires listed { AreConsecutive times.now }
    requires low { first_id times.now ≤ low }
    requires order { low ≤ high }
    requires high { high ≤ last_id times.now }
    ensures { result ≡ first_recent times.now from low high }
{
    for id in low..high {
        if is_recent(times, from, id) {
            return id;
        }
    }
    high
}

/// Whether the snapshot with an id isn't older than that.
fn is_recent(times: &[(u64, i64)], from: i128, id: u64) -> bool
    requires listed { AreConsecutive times.now }
    requires low { first_id times.now ≤ id }
    requires high { id ≤ last_id times.now }
    ensures { result ≡ is_recent times.now from id }
{
    let index = (id - first_id(times)) as usize;
    from <= i128::from(times[index].1)
}
