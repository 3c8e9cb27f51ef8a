//! How values compare where they lie.

ghost use Rattle.std.specs.Prelude.{◌≡◌, map};
ghost use Rattle.pm_values.specs.Order.{key_cmp, rank, value_cmp};
ghost use Rattle.pm_row_slots.specs.Seen.{seen_value};

use crate::seen::{Seen, seen_of};
use pm_values::Value;
use std::cmp::Ordering;

/// How keys compare. Most begin with integers that differ, which decide at once.
#[inline(always)]
pub fn order_of(a: &[Seen], b: &[Seen]) -> Ordering
    ensures { result ≡ key_cmp (map seen_value a.now) (map seen_value b.now) }
{
    match (a.first(), b.first()) {
        (Some(Seen::Int(first)), Some(Seen::Int(second))) if first != second => first.cmp(second),
        _ => order_by_value(a, b),
    }
}

/// How keys compare, value by value.
#[inline(never)]
fn order_by_value(a: &[Seen], b: &[Seen]) -> Ordering
    ensures { result ≡ key_cmp (map seen_value a.now) (map seen_value b.now) }
{
    match (a.split_first(), b.split_first()) {
        (Some((first, others)), Some((second, rest))) => match order_of_two(*first, *second) {
            Ordering::Equal => order_by_value(others, rest),
            order => order,
        },
        (None, None) => Ordering::Equal,
        (None, Some(_)) => Ordering::Less,
        (Some(_), None) => Ordering::Greater,
    }
}

/// How a key compares with one that has its own values.
pub(crate) fn order_with(a: &[Seen], b: &[Value]) -> Ordering
    ensures { result ≡ key_cmp (map seen_value a.now) b.now }
{
    match (a.split_first(), b.split_first()) {
        (Some((first, others)), Some((second, rest))) => match order_of_two(
            *first,
            seen_of(second),
        ) {
            Ordering::Equal => order_with(others, rest),
            order => order,
        },
        (None, None) => Ordering::Equal,
        (None, Some(_)) => Ordering::Less,
        (Some(_), None) => Ordering::Greater,
    }
}

/// How a key that has its own values compares with another.
pub(crate) fn order_before(a: &[Value], b: &[Seen]) -> Ordering
    ensures { result ≡ key_cmp a.now (map seen_value b.now) }
{
    match (a.split_first(), b.split_first()) {
        (Some((first, others)), Some((second, rest))) => match order_of_two(
            seen_of(first),
            *second,
        ) {
            Ordering::Equal => order_before(others, rest),
            order => order,
        },
        (None, None) => Ordering::Equal,
        (None, Some(_)) => Ordering::Less,
        (Some(_), None) => Ordering::Greater,
    }
}

/// How two values compare.
#[inline(always)]
fn order_of_two(a: Seen, b: Seen) -> Ordering
    ensures { result ≡ value_cmp (seen_value a.entry) (seen_value b.entry) }
{
    match (a, b) {
        (Seen::Int(a), Seen::Int(b)) => a.cmp(&b),
        (Seen::Text(a), Seen::Text(b)) => a.as_bytes().cmp(b.as_bytes()),
        (Seen::Bool(a), Seen::Bool(b)) => a.cmp(&b),
        (Seen::Bytes(a), Seen::Bytes(b)) => a.cmp(b),
        (Seen::Day(a), Seen::Day(b)) => a.cmp(&b),
        (Seen::Millis(a), Seen::Millis(b)) => a.cmp(&b),
        (a, b) => rank_of(a).cmp(&rank_of(b)),
    }
}

/// The index of a value's variant.
fn rank_of(seen: Seen) -> u8
    ensures { result ≡ rank (seen_value seen.entry) }
{
    match seen {
        Seen::Null => 0,
        Seen::Bool(_) => 1,
        Seen::Int(_) => 2,
        Seen::Text(_) => 3,
        Seen::Bytes(_) => 4,
        Seen::Day(_) => 5,
        Seen::Millis(_) => 6,
    }
}
