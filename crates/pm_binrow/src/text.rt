//! Texts and bytes: short ones in their slots, and long ones in tails.

ghost use Rattle.std.specs.Prelude.{◌≡◌, ◌++◌, ◌+◌, ◌≤◌, ◌<◌, ◌^◌, length, option_map, OnOk};
ghost use Rattle.pm_binrow.specs.Row.{padded, text_slot, text_tail, zeros};
ghost use Rattle.pm_binrow.specs.Reading.{is_zero, long_in, short_in, text_in};

use crate::fixed::{push_word, read_word};
use std::alloc::AllocError;

/// How many bytes stand in a slot of a text at most.
pub(crate) const SHORT: usize = 7;

/// A length, filled up to a multiple of eight.
fn padded(length: usize) -> usize
    requires { length < 2 ^ 63 }
    ensures { result ≡ padded length }
{
    (length + 7) / 8 * 8
}

/// Adds so many bytes 0.
pub(crate) fn push_zeros(out: &mut Vec<u8>, count: usize) -> Result<(), AllocError>
    ensures { OnOk result (out.new.items ≡ out.old.items ++ zeros count) }
{
    for _ in 0..count {
        out.push(0)?;
    }
    Ok(())
}

/// Adds the slot of a text, whose tail would stand at this offset of the body.
#[tactic(auto, unfolding(crate::specs::Row::text_slot))]
pub(crate) fn push_text_slot(
    out: &mut Vec<u8>,
    offset: usize,
    text: &[u8],
) -> Result<(), AllocError>
    requires text { length text.now < 2 ^ 32 }
    requires offset { offset < 2 ^ 32 }
    ensures { OnOk result (out.new.items ≡ out.old.items ++ text_slot offset text.now) }
{
    if text.len() > SHORT {
        push_word(out, text.len() as u32)?;
        push_word(out, offset as u32)
    } else {
        out.extend_from_slice(text)?;
        push_zeros(out, SHORT - text.len())?;
        out.push(128 + text.len() as u8)?;
        Ok(())
    }
}

/// Adds the tail of a text.
#[tactic(auto, unfolding(crate::specs::Row::text_tail))]
pub(crate) fn push_text_tail(out: &mut Vec<u8>, text: &[u8]) -> Result<(), AllocError>
    ensures { OnOk result (out.new.items ≡ out.old.items ++ text_tail text.now) }
{
    if text.len() > SHORT {
        out.extend_from_slice(text)?;
        push_zeros(out, padded(text.len()) - text.len())?;
    }
    Ok(())
}

/// How many bytes the tail of a text takes.
#[tactic(auto, unfolding(crate::specs::Row::text_tail))]
pub(crate) fn tail_size(text: &[u8]) -> usize
    ensures size { result ≡ length (text_tail text.now) }
    ensures bound { result < 2 ^ 63 + 8 }
{
    if text.len() > SHORT {
        padded(text.len())
    } else {
        0
    }
}

/// Whether all bytes are 0.
#[tactic(auto, unfolding(crate::specs::Reading::is_zero))]
pub(crate) fn is_zero(bytes: &[u8]) -> bool
    ensures { result ≡ is_zero bytes.now }
{
    for byte in bytes {
        if *byte != 0 {
            return false;
        }
    }
    true
}

/// So many bytes of a slot, and all of the tails.
#[tactic(auto, unfolding(crate::specs::Reading::short_in))]
fn read_short<'a>(length: usize, slot: &'a [u8; 8], tails: &'a [u8]) -> Option<(&'a [u8], &'a [u8])>
    ensures { option_map (λ t. (t.0.now, t.1.now)) result ≡ short_in length slot.now tails.now }
{
    if length > SHORT {
        return None;
    }
    let (text, padding) = slot.split_at(SHORT).0.split_at(length);
    if is_zero(padding) {
        Some((text, tails))
    } else {
        None
    }
}

/// So many bytes of the tails, which are at this offset of a body of this size, and the later tails.
#[tactic(auto, unfolding(crate::specs::Reading::long_in))]
fn read_long(size: usize, length: usize, offset: usize, tails: &[u8]) -> Option<(&[u8], &[u8])>
    requires length { length < 2 ^ 32 }
    requires offset { offset < 2 ^ 32 }
    ensures { option_map (λ t. (t.0.now, t.1.now)) result ≡ long_in size length offset tails.now }
{
    if length <= SHORT || offset + tails.len() != size {
        return None;
    }
    let (part, later) = tails.split_at_checked(padded(length))?;
    let (text, padding) = part.split_at(length);
    if is_zero(padding) {
        Some((text, later))
    } else {
        None
    }
}

/// The text of a slot, in a body of this size, and the later tails.
#[tactic(auto, unfolding(crate::specs::Reading::text_in))]
pub(crate) fn read_text<'a>(
    size: usize,
    slot: &'a [u8; 8],
    tails: &'a [u8],
) -> Option<(&'a [u8], &'a [u8])>
    ensures { option_map (λ t. (t.0.now, t.1.now)) result ≡ text_in size slot.now tails.now }
{
    if slot[7] >= 128 {
        return read_short(usize::from(slot[7] - 128), slot, tails);
    }
    let (length, rest) = slot.split_first_chunk::<4>()?;
    let (offset, _) = rest.split_first_chunk::<4>()?;
    let length = read_word(length) as usize;
    let offset = read_word(offset) as usize;
    read_long(size, length, offset, tails)
}
