//! The orders of rows that calls ask for.

ghost use Rattle.std.specs.Prelude.{◌≡◌, ◌≤◌, None, Some, IsTrue, length, true};
ghost use Rattle.pm_run.specs.Order.{are_in_order, rises};
ghost use Rattle.pm_run.specs.Writing.{AreRising, CountFrom};

use pm_values::{Key, Stamped};
use std::cmp::Ordering;

/// Whether the keys rise.
pub fn are_rising(rows: &[Stamped]) -> bool
    ensures { result ≡ true → AreRising rows.now }
{
    are_in_order(false, rows)
}

/// Whether the rows are those of a changelog: there is one, the keys don't fall, and the numbers count from 0.
pub fn are_changes(rows: &[Stamped]) -> bool
    ensures some { result ≡ true → 1 ≤ length rows.now }
    ensures order { result ≡ true → IsTrue (are_in_order true None rows.now) }
    ensures numbers { result ≡ true → CountFrom 0 rows.now }
{
    if rows.is_empty() {
        return false;
    }
    if !are_in_order(true, rows) {
        return false;
    }
    count_from_zero(rows)
}

/// Whether the keys are in the order of a changelog file, or else of a data file.
fn are_in_order(changes: bool, rows: &[Stamped]) -> bool
    ensures { result ≡ are_in_order changes None rows.now }
{
    match rows.split_first() {
        Some((first, later)) => follow(changes, &first.key, later),
        None => true,
    }
}

/// Whether each key may follow the one before it, the first one this.
fn follow(changes: bool, before: &Key, rows: &[Stamped]) -> bool
    ensures { result ≡ are_in_order changes (Some before.now) rows.now }
{
    let mut last = before;
    for row in rows {
        if !may_follow(changes, last, &row.key) {
            return false;
        }
        last = &row.key;
    }
    true
}

/// Whether a key may follow another.
fn may_follow(changes: bool, last: &Key, key: &Key) -> bool
    ensures { result ≡ rises changes last.now key.now }
{
    let order = last.cmp(key);
    if changes {
        order != Ordering::Greater
    } else {
        order == Ordering::Less
    }
}

/// Whether the numbers count from 0.
fn count_from_zero(rows: &[Stamped]) -> bool
    ensures { result ≡ true → CountFrom 0 rows.now }
{
    for (index, row) in rows.iter().enumerate() {
        if row.seq != index as u64 {
            return false;
        }
    }
    true
}
