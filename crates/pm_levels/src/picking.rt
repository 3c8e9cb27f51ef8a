//! The choice of a compaction.

ghost use Rattle.std.specs.Prelude.{◌≡◌, ◌+◌, ◌*◌, ◌-◌, ◌^◌, min, nat_lt};
ghost use Rattle.pm_levels.specs.Picking.{all_of, by_size, by_zeros, bytes_in, close, in_full, is_ample, picked};
ghost use Rattle.pm_levels.specs.Picking.{run_at, stretch, top_of, up_to_one, zeros_of};

use crate::choice::{Asked, Pick, PickRule};
use crate::runs::RunSize;

/// The runs that a compaction takes, of those of a group, newest first; none where there is nothing to do.
pub fn pick(runs: &[RunSize], asked: Asked, rule: &PickRule) -> Option<Pick>
    ensures { result ≡ picked runs.now asked rule.now }
{
    match asked {
        Asked::Full => in_full(runs, rule),
        Asked::LevelZero => by_size(runs, rule).or(by_zeros(runs, rule)),
        Asked::No => by_size(runs, rule),
    }
}

/// All runs, where they aren't one of the highest level.
fn in_full(runs: &[RunSize], rule: &PickRule) -> Option<Pick>
    ensures { result ≡ in_full runs.now rule.now }
{
    if runs.is_empty() {
        return None;
    }
    if runs.len() == 1 && level_at(runs, 0) == top_of(rule) {
        return None;
    }
    Some(all_of(runs, rule))
}

/// What the sizes ask for.
fn by_size(runs: &[RunSize], rule: &PickRule) -> Option<Pick>
    ensures { result ≡ by_size runs.now rule.now }
{
    let trigger = rule.trigger as usize;
    if runs.len() < trigger {
        return None;
    }
    if is_ample(runs, rule) {
        return Some(all_of(runs, rule));
    }
    let count = stretch(runs, rule, 1);
    if 1 < count {
        return Some(close(runs, rule, count));
    }
    if trigger < runs.len() {
        let count = stretch(runs, rule, runs.len() - trigger + 1);
        return Some(close(runs, rule, count));
    }
    None
}

/// The runs of level 0, and what has to go with them.
fn by_zeros(runs: &[RunSize], rule: &PickRule) -> Option<Pick>
    ensures { result ≡ by_zeros runs.now rule.now }
{
    let count = zeros_of(runs);
    if count == 0 {
        return None;
    }
    Some(close(runs, rule, count))
}

/// Whether the newer runs together are large beside the oldest one.
fn is_ample(runs: &[RunSize], rule: &PickRule) -> bool
    ensures { result ≡ is_ample runs.now rule.now }
{
    let Some((oldest, newer)) = runs.split_last() else {
        return false;
    };
    let bound = u128::from(rule.amplification) * u128::from(oldest.bytes);
    bound < bytes_in(newer).saturating_mul(100)
}

/// The sizes together, at most the greatest number of 128 bits.
fn bytes_in(runs: &[RunSize]) -> u128
    ensures { result ≡ min (bytes_in runs.now) (2 ^ 128 - 1) }
{
    let mut bytes: u128 = 0;
    for run in runs {
        bytes = bytes.saturating_add(u128::from(run.bytes));
    }
    bytes
}

/// How many runs are taken where at least so many are.
fn stretch(runs: &[RunSize], rule: &PickRule, least: usize) -> usize
    ensures { result ≡ stretch runs.now rule.now least }
{
    let mut bytes: u128 = 0;
    for index in 0..runs.len() {
        let next = runs[index].bytes;
        if least <= index && is_large(bytes, next, rule) {
            return index;
        }
        bytes = bytes.saturating_add(u128::from(next));
    }
    least.max(runs.len())
}

/// Whether the next run is large beside those that have so many bytes.
fn is_large(bytes: u128, next: u64, rule: &PickRule) -> bool
    ensures { result ≡ nat_lt (bytes * (100 + rule.now.ratio)) (100 * next) }
{
    bytes.saturating_mul(100 + u128::from(rule.ratio)) < 100 * u128::from(next)
}

/// The choice that takes at least so many runs.
fn close(runs: &[RunSize], rule: &PickRule, count: usize) -> Pick
    ensures { result ≡ close runs.now rule.now count }
{
    if count == runs.len() {
        return all_of(runs, rule);
    }
    let level = level_at(runs, count);
    if 2 <= level {
        Pick {
            take: count,
            out: level - 1,
        }
    } else {
        up_to_one(runs, rule)
    }
}

/// The choice that takes the runs up to the first above level 0.
fn up_to_one(runs: &[RunSize], rule: &PickRule) -> Pick
    ensures { result ≡ up_to_one runs.now rule.now }
{
    let zeros = zeros_of(runs);
    if zeros.saturating_add(1) < runs.len() {
        Pick {
            take: zeros + 1,
            out: level_at(runs, zeros),
        }
    } else {
        all_of(runs, rule)
    }
}

/// The choice that takes all runs.
fn all_of(runs: &[RunSize], rule: &PickRule) -> Pick
    ensures { result ≡ all_of runs.now rule.now }
{
    Pick {
        take: runs.len(),
        out: top_of(rule),
    }
}

/// How many runs are at level 0.
fn zeros_of(runs: &[RunSize]) -> usize
    ensures { result ≡ zeros_of runs.now }
{
    let mut count = 0;
    for run in runs {
        if run.level == 0 {
            count += 1;
        }
    }
    count
}

/// The level of the run at the index, 0 where there is none.
fn level_at(runs: &[RunSize], index: usize) -> u32
    ensures { result ≡ (run_at runs.now index).level }
{
    match runs.get(index) {
        Some(run) => run.level,
        None => 0,
    }
}

/// The highest level.
fn top_of(rule: &PickRule) -> u32
    ensures { result ≡ top_of rule.now }
{
    rule.levels.saturating_sub(1)
}
