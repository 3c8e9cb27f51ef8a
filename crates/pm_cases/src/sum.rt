//! Checksums.

use crate::case::Case;

/// Says the length of bytes, and their checksum.
pub fn say_sum(case: &mut Case, bytes: &[u8]) {
    case.say_made(format!(in case.alloc(); "{} {}", bytes.len(), checksum(bytes)));
}

/// From 0 on, for each byte 31 times the number before it and the byte, in 32 bits.
pub fn checksum(bytes: &[u8]) -> u32 {
    let mut sum = 0_u32;
    for byte in bytes {
        sum = sum.wrapping_mul(31).wrapping_add(u32::from(*byte));
    }
    sum
}
