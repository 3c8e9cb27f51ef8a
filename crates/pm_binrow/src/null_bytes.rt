//! Null bytes: a bit for each column.

ghost use Rattle.std.specs.Prelude.{◌≡◌, ◌++◌, ◌≤◌, ◌<◌, ◌^◌, ◌*◌, length, map, take, drop, OnOk};
ghost use Rattle.pm_binrow.specs.Row.{is_null, null_bits, null_bytes, null_count, octet};
ghost use Rattle.pm_binrow.specs.Reading.{are_octets, is_marked};

use pm_values::Value;
use std::alloc::AllocError;

/// How many null bytes so many columns have.
pub(crate) fn null_count(columns: usize) -> usize
    requires { columns < 2 ^ 32 }
    ensures { result ≡ null_count columns }
{
    (columns + 71) / 64 * 8
}

/// Whether a value is null.
fn is_null(value: &Value) -> bool
    ensures { result ≡ is_null value.now }
{
    matches!(value, Value::Null)
}

/// The first eight values, all where there are fewer, and the later ones.
fn split_eight(values: &[Value]) -> (&[Value], &[Value])
    ensures few { length result.0.now ≤ 8 }
    ensures first { result.0.now ≡ take 8 values.now }
    ensures later { result.1.now ≡ drop 8 values.now }
{
    values.split_at(values.len().min(8))
}

/// The null byte of at most eight values, lowest bit first.
#[tactic(auto, unfolding(crate::specs::Row::octet), using(crate::proofs::Bits::octet_below))]
fn octet(values: &[Value]) -> u8
    requires { length values.now ≤ 8 }
    ensures { result ≡ octet (map is_null values.now) }
{
    match values.split_first() {
        Some((value, later)) => u8::from(is_null(value)) + 2 * octet(later),
        None => 0,
    }
}

/// Adds the null bytes of one value for each column.
pub(crate) fn push_null_bytes(out: &mut Vec<u8>, values: &[Value]) -> Result<(), AllocError>
    requires { length values.now < 2 ^ 32 }
    ensures { OnOk result (out.new.items ≡ out.old.items ++ null_bytes (map is_null values.now)) }
{
    // The first eight bits are no column's.
    out.push(0)?;
    let mut rest = values;
    for _ in 1..null_count(values.len()) {
        let (eight, later) = split_eight(rest);
        out.push(octet(eight))?;
        rest = later;
    }
    Ok(())
}

/// Whether null bytes are those of these values, and the bits after them are 0.
pub(crate) fn are_null_bytes(nulls: &[u8], values: &[Value]) -> bool
    ensures { result ≡ are_octets nulls.now (null_bits (map is_null values.now)) }
{
    let Some((first, later)) = nulls.split_first() else {
        return true;
    };
    if *first != 0 {
        return false;
    }
    let mut rest = values;
    for byte in later {
        let (eight, after) = split_eight(rest);
        if *byte != octet(eight) {
            return false;
        }
        rest = after;
    }
    true
}

/// Whether the bit of this index is set.
pub(crate) fn is_marked(nulls: &[u8], index: usize) -> bool
    requires { index < 8 * length nulls.now }
    ensures { result ≡ is_marked nulls.now index }
{
    (nulls[index / 8] >> (index % 8)) % 2 == 1
}
