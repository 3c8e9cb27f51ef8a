//! Integers of JSON, straight from their text.

ghost use Rattle.std.specs.Prelude.{◌≡◌, ◌==◌, ◌<◌, length, slice_index, Some, IfSome, IsTrue, false, true};
ghost use Rattle.std.specs.Prelude.{option_and_then};
ghost use Rattle.serde_json.specs.Find.{as_integer};
ghost use Rattle.serde_json.specs.Read.{number_of, number_from};

use fast_float::Numeral;

/// The integer that a number's text is. None where JSON reads it as a float, and where 64 bits
/// with a sign don't hold it.
pub(crate) fn integer_in(text: &str) -> Option<i64>
    ensures { IfSome result (λ n. option_and_then as_integer (number_of text.now) ≡ Some n) }
{
    let bytes = text.as_bytes();
    if has_minus(bytes) {
        below_zero(&Numeral::scan(&bytes[1..]))
    } else {
        from_zero(&Numeral::scan(bytes))
    }
}

/// Whether a minus stands first.
fn has_minus(bytes: &[u8]) -> bool
    ensures value { result ≡ (slice_index bytes.now 0 == 45) }
    ensures len { IsTrue result → 0 < length bytes.now }
{
    !bytes.is_empty() && bytes[0] == b'-'
}

/// The integer of digits without a sign.
#[tactic(auto, using(crate::proofs::IntegerLemmas::integer_from_zero))]
fn from_zero(numeral: &Numeral<'_>) -> Option<i64>
    ensures { IfSome result (λ n. option_and_then as_integer (number_from false numeral.now) ≡ Some n) }
{
    numeral.to_i64(false)
}

/// The integer of digits after a minus; `-0` is a float.
#[tactic(auto, using(crate::proofs::IntegerLemmas::integer_below_zero))]
fn below_zero(numeral: &Numeral<'_>) -> Option<i64>
    ensures { IfSome result (λ n. option_and_then as_integer (number_from true numeral.now) ≡ Some n) }
{
    let n = numeral.to_i64(true)?;
    if n < 0 { Some(n) } else { None }
}
