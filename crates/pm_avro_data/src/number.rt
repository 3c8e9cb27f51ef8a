//! Ints and longs.

ghost use Rattle.std.specs.Prelude.{IfSome, ◌≡◌, ◌+◌, ◌-◌, ◌*◌, ◌%◌, ◌^◌, ◌<◌, ◌≤◌};
ghost use Rattle.pm_avro_data.specs.Reading.{IsReading, byte_at, number_at, int_at};
ghost use Rattle.pm_avro_data.specs.Reading.{long_at, size_at, index_at, unzigzag};

/// The first byte, and the rest.
pub(crate) fn read_byte(bytes: &[u8]) -> Option<(u8, &[u8])>
    ensures { IsReading (λ b. b) result (byte_at bytes.now) }
{
    let (byte, rest) = bytes.split_first()?;
    Some((*byte, rest))
}

/// The low seven bits of the byte, where the group of this index has them in a number.
#[tactic(auto, using(crate::proofs::Numbers::shift_fits))]
fn group(byte: u8, index: u32) -> u64
    requires index { index < 10 }
    requires fits { (byte % 128 + 1) * 2 ^ (7 * index) ≤ 2 ^ 64 }
    ensures { result ≡ byte % 128 * 2 ^ (7 * index) }
{
    u64::from(byte % 128) << (7 * index)
}

/// The number in groups that the bytes begin with, of at most so many bytes, and the rest.
fn read_number(bytes: &[u8], most: u32, top: u8) -> Option<(u64, &[u8])>
    requires some { 0 < most }
    requires few { most ≤ 10 }
    requires top { top < 128 }
    requires fits { (top + 1) * 2 ^ (7 * (most - 1)) ≤ 2 ^ 64 }
    ensures reads { IsReading (λ n. n) result (number_at most top bytes.now) }
    ensures below { IfSome result (λ x. x.0 < (top + 1) * 2 ^ (7 * (most - 1))) }
{
    let mut number = 0;
    let mut rest = bytes;
    for i in 0..most {
        let (byte, after) = read_byte(rest)?;
        if i + 1 == most && byte > top {
            return None;
        }
        number += group(byte, i);
        rest = after;
        if byte < 128 {
            return Some((number, rest));
        }
    }
    None
}

/// The integer that a number stands for.
fn from_zigzag(number: u64) -> i64
    ensures { result ≡ unzigzag number }
{
    let half = (number / 2) as i64;
    if number % 2 == 0 { half } else { -1 - half }
}

/// The long that the bytes begin with, and the rest.
#[tactic(auto, unfolding(crate::specs::Reading::long_at))]
pub(crate) fn read_long(bytes: &[u8]) -> Option<(i64, &[u8])>
    ensures { IsReading (λ z. z) result (long_at bytes.now) }
{
    let (number, rest) = read_number(bytes, 10, 1)?;
    Some((from_zigzag(number), rest))
}

/// The int that the bytes begin with, and the rest.
#[tactic(auto, unfolding(crate::specs::Reading::int_at))]
pub(crate) fn read_int(bytes: &[u8]) -> Option<(i32, &[u8])>
    ensures { IsReading (λ z. z) result (int_at bytes.now) }
{
    let (number, rest) = read_number(bytes, 5, 15)?;
    Some((from_zigzag(number) as i32, rest))
}

/// The size that the bytes begin with, a long that isn't negative, and the rest.
#[tactic(auto, unfolding(crate::specs::Reading::size_at))]
pub(crate) fn read_size(bytes: &[u8]) -> Option<(usize, &[u8])>
    ensures { IsReading (λ n. n) result (size_at bytes.now) }
{
    let (size, rest) = read_long(bytes)?;
    if size < 0 {
        return None;
    }
    Some((size as usize, rest))
}

/// The index of a branch that the bytes begin with, an int that isn't negative, and the rest.
#[tactic(auto, unfolding(crate::specs::Reading::index_at))]
pub(crate) fn read_index(bytes: &[u8]) -> Option<(u32, &[u8])>
    ensures { IsReading (λ n. n) result (index_at bytes.now) }
{
    let (index, rest) = read_int(bytes)?;
    if index < 0 {
        return None;
    }
    Some((index as u32, rest))
}
