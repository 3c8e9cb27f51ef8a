//! The arguments of a case.

ghost use Rattle.std.specs.Prelude.{◌≡◌, option_map, IfOk};
ghost use Rattle.pm_cases.specs.Argument.{spelled};

use pm_value_text::parse_hex;
use std::alloc::{AllocError, Global};

/// The bytes that an argument spells: those of the digits after `0x`, or its own. None where no digits follow.
pub fn read_bytes(alloc: Global, argument: &str) -> Result<Option<Vec<u8>>, AllocError>
    ensures { IfOk result (λ found. option_map (λ bytes. bytes.items) found ≡ spelled argument.now) }
{
    match argument.strip_prefix("0x") {
        Some(digits) => parse_hex(alloc, digits),
        None => Ok(Some(Vec::from_slice(alloc, argument.as_bytes())?)),
    }
}

/// The text that an argument spells. None where its bytes are no text.
pub fn read_text(alloc: Global, argument: &str) -> Result<Option<String>, AllocError> {
    match read_bytes(alloc, argument)? {
        Some(bytes) => Ok(String::from_utf8(bytes).ok()),
        None => Ok(None),
    }
}
