//! How packed keys compare.

ghost use Rattle.std.specs.Prelude.{◌≡◌};
ghost use Rattle.pm_values.specs.Order.{key_cmp, rank, value_cmp};
ghost use Rattle.pm_packed.specs.Values.{raw_value, values_in};

use crate::raw::{Raw, first_integer, take_raw};
use std::cmp::Ordering;

/// How the first values of bytes compare as keys, so many of each. Keys of one integer each are compared at once.
#[inline(always)]
pub(crate) fn order_of(a_count: u8, a: &[u8], b_count: u8, b: &[u8]) -> Ordering
    ensures { result ≡ key_cmp (values_in a_count a.now).0 (values_in b_count b.now).0 }
{
    if a_count == 1 && b_count == 1 {
        if let (Some(first), Some(second)) = (first_integer(a), first_integer(b)) {
            return first.cmp(&second);
        }
    }
    order_of_many(a_count, a, b_count, b)
}

/// How the first values of bytes compare as keys, so many of each, one after another.
fn order_of_many(a_count: u8, a: &[u8], b_count: u8, b: &[u8]) -> Ordering
    ensures { result ≡ key_cmp (values_in a_count a.now).0 (values_in b_count b.now).0 }
{
    match (a_count.checked_sub(1), b_count.checked_sub(1)) {
        (Some(a_count), Some(b_count)) => {
            let (first, others) = take_raw(a);
            let (second, rest) = take_raw(b);
            match order_of_two(first, second) {
                Ordering::Equal => order_of_many(a_count, others, b_count, rest),
                order => order,
            }
        }
        (None, None) => Ordering::Equal,
        (None, Some(_)) => Ordering::Less,
        (Some(_), None) => Ordering::Greater,
    }
}

/// How two values compare.
#[inline(always)]
fn order_of_two(a: Raw, b: Raw) -> Ordering
    ensures { result ≡ value_cmp (raw_value a.entry) (raw_value b.entry) }
{
    match (a, b) {
        (Raw::Int(a), Raw::Int(b)) => a.cmp(&b),
        (Raw::Text(a), Raw::Text(b)) => a.cmp(b),
        (Raw::Bool(a), Raw::Bool(b)) => a.cmp(&b),
        (Raw::Bytes(a), Raw::Bytes(b)) => a.cmp(b),
        (Raw::Day(a), Raw::Day(b)) => a.cmp(&b),
        (Raw::Millis(a), Raw::Millis(b)) => a.cmp(&b),
        (a, b) => rank_of(a).cmp(&rank_of(b)),
    }
}

/// The index of a value's variant.
fn rank_of(raw: Raw) -> u8
    ensures { result ≡ rank (raw_value raw.entry) }
{
    match raw {
        Raw::Null => 0,
        Raw::Bool(_) => 1,
        Raw::Int(_) => 2,
        Raw::Text(_) => 3,
        Raw::Bytes(_) => 4,
        Raw::Day(_) => 5,
        Raw::Millis(_) => 6,
    }
}
