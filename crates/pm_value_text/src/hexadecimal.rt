//! Bytes as hexadecimal digits.

ghost use Rattle.std.specs.Prelude.{◌≡◌, IfOk, option_map};
ghost use Rattle.std.specs.String.{string_bytes};
ghost use Rattle.pm_value_text.specs.Hexadecimal.{bytes_in, hex_text};

use hex::FromHexError;
use std::alloc::{AllocError, Global};

/// The bytes of an even number of hexadecimal digits, of either case. None for every other text.
pub fn parse_hex(alloc: Global, text: &str) -> Result<Option<Vec<u8>>, AllocError>
    ensures { IfOk result (λ found. option_map (λ bytes. bytes.items) found ≡ bytes_in text.now) }
{
    match hex::decode(alloc, text) {
        Ok(bytes) => Ok(Some(bytes)),
        Err(error) => match error {
            FromHexError::OutOfMemory => Err(AllocError),
            _ => Ok(None),
        },
    }
}

/// The digits of the bytes, in lower case.
#[tactic(auto, using(crate::proofs::HexLemmas::digits))]
pub fn print_hex(alloc: Global, bytes: &[u8]) -> Result<String, AllocError>
    ensures { IfOk result (λ text. string_bytes text ≡ hex_text bytes.now) }
{
    hex::encode(alloc, bytes)
}
