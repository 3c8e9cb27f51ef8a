//! Numbers from their decimal texts.

ghost use Rattle.std.specs.Prelude.{◌≡◌};
ghost use Rattle.pm_snapshot.specs.Decimal.{natural_in, integer_in};

use itoa::Buffer;
use std::str;

/// The number whose decimal text this is.
pub(crate) fn natural_in(text: &[u8]) -> Option<u64>
    ensures { result ≡ natural_in text.now }
{
    let Ok(digits) = str::from_utf8(text) else {
        return None;
    };
    match digits.parse::<u64>() {
        Ok(n) if Buffer::new().format(n) == digits => Some(n),
        _ => None,
    }
}

/// The number with its sign whose decimal text this is.
pub(crate) fn integer_in(text: &[u8]) -> Option<i64>
    ensures { result ≡ integer_in text.now }
{
    let Ok(digits) = str::from_utf8(text) else {
        return None;
    };
    match digits.parse::<i64>() {
        Ok(z) if Buffer::new().format(z) == digits => Some(z),
        _ => None,
    }
}
