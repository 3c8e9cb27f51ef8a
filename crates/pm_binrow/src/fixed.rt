//! Numbers of a fixed width, as they stand in rows.

ghost use Rattle.std.specs.Prelude.{◌≡◌, ◌++◌, OnOk};
ghost use Rattle.std.specs.Int.{w32, w64, from_be_bytes, from_le_bytes, to_be_bytes, to_le_bytes};

use byteorder::{BigEndian, ByteOrder, LittleEndian};
use std::alloc::AllocError;

/// The number of four bytes, the lowest first.
#[inline]
pub(crate) fn read_word(bytes: &[u8; 4]) -> u32
    ensures { result ≡ from_le_bytes w32 bytes.now }
{
    LittleEndian::read_u32(bytes)
}

/// The number of the eight bytes of a slot, the lowest first.
#[inline]
pub(crate) fn read_slot(bytes: &[u8; 8]) -> u64
    ensures { result ≡ from_le_bytes w64 bytes.now }
{
    LittleEndian::read_u64(bytes)
}

/// The number of four bytes, the highest first.
#[inline]
pub(crate) fn read_count(bytes: &[u8; 4]) -> u32
    ensures { result ≡ from_be_bytes w32 bytes.now }
{
    BigEndian::read_u32(bytes)
}

/// Adds a number in four bytes, the lowest first.
pub(crate) fn push_word(out: &mut Vec<u8>, number: u32) -> Result<(), AllocError>
    ensures { OnOk result (out.new.items ≡ out.old.items ++ to_le_bytes w32 number) }
{
    let mut word = [0u8; 4];
    let bytes: &mut [u8] = &mut word;
    LittleEndian::write_u32(bytes, number);
    out.extend_from_slice(bytes)
}

/// Adds a number in the eight bytes of a slot, the lowest first.
pub(crate) fn push_number(out: &mut Vec<u8>, number: u64) -> Result<(), AllocError>
    ensures { OnOk result (out.new.items ≡ out.old.items ++ to_le_bytes w64 number) }
{
    let mut slot = [0u8; 8];
    let bytes: &mut [u8] = &mut slot;
    LittleEndian::write_u64(bytes, number);
    out.extend_from_slice(bytes)
}

/// Adds a number in four bytes, the highest first.
pub(crate) fn push_count(out: &mut Vec<u8>, number: u32) -> Result<(), AllocError>
    ensures { OnOk result (out.new.items ≡ out.old.items ++ to_be_bytes w32 number) }
{
    let mut word = [0u8; 4];
    let bytes: &mut [u8] = &mut word;
    BigEndian::write_u32(bytes, number);
    out.extend_from_slice(bytes)
}
