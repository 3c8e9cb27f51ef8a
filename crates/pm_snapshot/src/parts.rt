//! The parts of a name between its prefix and its suffix.

ghost use Rattle.std.specs.Prelude.{◌≡◌, ℕ, ◌<◌, ◌↔◌, All, IfSome, IfNone, IsTrue, length};
ghost use Rattle.uuid.specs.Text.{hyphenated_text, lower};
ghost use Rattle.pm_snapshot.specs.Parts.{IsUncut, IsCut, IsCounted, IsMade, IsIdentifier, IsMiddle};

use crate::decimal::natural_in;
use crate::names::number_in;
use uuid::Uuid;

/// The bytes of an identifier's text.
const IDENTIFIER: usize = 36;

/// The base of a name between its prefix and its suffix.
pub(crate) fn base_in_middle(text: &[u8]) -> Option<u64>
    ensures found { IfSome result (IsMiddle text.now) }
    ensures other { IfNone result ((base : ℕ) → ¬ IsMiddle text.now base) }
{
    if text.len() < IDENTIFIER {
        return None;
    }
    let (identifier, rest) = text.split_at(IDENTIFIER);
    if !is_identifier(identifier) {
        return None;
    }
    let made = rest.strip_prefix(b"-")?;
    base_in_made(made)
}

/// The base of an actor, a base and a count.
fn base_in_made(text: &[u8]) -> Option<u64>
    ensures found { IfSome result (IsMade text.now) }
    ensures other { IfNone result ((base : ℕ) → ¬ IsMade text.now base) }
{
    let (actor, counted) = cut(text)?;
    let _ = number_in(actor)?;
    base_in_counted(counted)
}

/// The base of a base and a count.
fn base_in_counted(text: &[u8]) -> Option<u64>
    ensures found { IfSome result (IsCounted text.now) }
    ensures other { IfNone result ((base : ℕ) → ¬ IsCounted text.now base) }
{
    let (base, count) = cut(text)?;
    let _ = natural_in(count)?;
    number_in(base)
}

/// What stands before the first hyphen of a text, and what after it.
fn cut(text: &[u8]) -> Option<(&[u8], &[u8])>
    ensures found { IfSome result (λ p. IsCut text.now p.0.now p.1.now) }
    ensures other { IfNone result (IsUncut text.now) }
{
    for (at, byte) in text.iter().enumerate() {
        if *byte == b'-' {
            let (before, rest) = text.split_at(at);
            return Some((before, rest.split_at(1).1));
        }
    }
    None
}

/// Whether a text is the identifier of a session.
fn is_identifier(text: &[u8]) -> bool
    ensures { IsTrue result ↔ IsIdentifier text.now }
{
    match Uuid::try_parse_ascii(text) {
        Ok(id) => is_text_of(id, text),
        Err(_) => false,
    }
}

/// Whether a text is that of an identifier, in lower case with hyphens.
fn is_text_of(id: Uuid, text: &[u8]) -> bool
    ensures text { IsTrue result ↔ (text.now ≡ hyphenated_text lower id) }
    ensures session { (length id ≡ 16) × All (λ b. b < 256) id }
{
    bytes_fit(&id.into_bytes());
    let mut buffer = Uuid::encode_buffer();
    id.hyphenated().encode_lower(&mut buffer).as_bytes() == text
}

/// Each byte has eight bits, which no clause says of an array: this walk reads them, and has no effect.
fn bytes_fit(session: &[u8; 16])
    ensures { (length session.now ≡ 16) × All (λ b. b < 256) session.now }
{
    for i in 0..16 {
        let _ = session[i];
    }
}
