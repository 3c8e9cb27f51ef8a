//! A row packed by itself.

ghost use Rattle.std.specs.Prelude.{◌≡◌, ◌≤◌, ◌++◌, ℕ, List, drop, length, take, IfOk, IsTrue};
ghost use Rattle.pm_packed.specs.Rows.{IsRowCode};

use crate::adding::add_values;
use pm_values::{Kind, Stamped};
use std::alloc::AllocError;

/// A row's number, its kind, and how its values are packed.
#[derive(Clone, Copy)]
pub(crate) struct Head {
    pub(crate) seq: u32,
    pub(crate) kind: Kind,
    pub(crate) key_count: u8,
    pub(crate) row_count: u8,
    /// Whether its first values are its key, which then isn't packed before them.
    pub(crate) begins: bool,
}

/// A row that was packed into a buffer: from the offset on stand its values.
#[derive(Clone, Copy)]
pub(crate) struct Packed {
    pub(crate) offset: usize,
    pub(crate) head: Head,
}

/// Packs a row into a buffer, in the place of what it had. Out of memory is also answered where the row or its key has
/// more than 255 values, and where 32 bits don't hold its number or the length of a value.
pub(crate) fn pack(buffer: &mut Vec<u8>, row: &Stamped) -> Result<Packed, AllocError>
    ensures code { IfOk result (λ packed. IsRowCode row.now packed.head (drop packed.offset buffer.new.items)) }
    ensures within { IfOk result (λ packed. packed.offset ≤ length buffer.new.items) }
{
    let (keys, values) = (row.key.values(), row.row.values());
    let (Ok(seq), Ok(key_count), Ok(row_count)) = (
        u32::try_from(row.seq),
        u8::try_from(keys.len()),
        u8::try_from(values.len()),
    ) else {
        return Err(AllocError);
    };
    buffer.clear();
    add_values(buffer, keys)?;
    let middle = buffer.len();
    add_values(buffer, values)?;
    let begins = begins_at(buffer, middle);
    Ok(Packed {
        offset: if begins { middle } else { 0 },
        head: Head {
            seq,
            kind: row.kind,
            key_count,
            row_count,
            begins,
        },
    })
}

/// Whether the bytes from the middle on begin with those before it.
fn begins_at(bytes: &[u8], middle: usize) -> bool
    requires { middle ≤ length bytes.now }
    ensures { IsTrue result → (rest : List ℕ) × (drop middle bytes.now ≡ take middle bytes.now ++ rest) }
{
    let (first, second) = bytes.split_at(middle);
    second.starts_with(first)
}
