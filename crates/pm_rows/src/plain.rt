//! The line of a row whose texts need no escape, as most are, put together without looking for escapes again.

ghost use Rattle.std.specs.Prelude.{◌≡◌, [], ◌∷◌, ◌++◌, OnOk, IsTrue, map};
ghost use Rattle.std.specs.Fmt.{signed_decimal};
ghost use Rattle.std.specs.List.{AllByRecursion};
ghost use Rattle.json.specs.Print.{quoted};
ghost use Rattle.pm_row_slots.specs.Seen.{seen_value};
ghost use Rattle.pm_rows.specs.Plain.{AddsTo, IsPlain, IsUnescaped, item_text, items_text, kind_head};
ghost use Rattle.pm_rows.specs.RowText.{row_text};

use itoa::Buffer;
use pm_row_slots::Seen;
use pm_values::Kind;
use std::alloc::AllocError;

/// Adds the line of a row of plain values.
pub(crate) fn push_plain(text: &mut Vec<u8>, kind: Kind, values: &[Seen]) -> Result<(), AllocError>
    requires { AllByRecursion IsPlain (map seen_value values.now) }
    ensures ok { OnOk result (text.new.items ≡ text.old.items ++ row_text kind (map seen_value values.now)) }
    ensures adds { AddsTo text.old.items text.new.items }
{
    add(text, head_of(kind))?;
    push_items(text, values)?;
    add_byte(text, b']')?;
    Ok(())
}

/// What the line of a row of the kind begins with.
fn head_of(kind: Kind) -> &'static [u8]
    ensures { result.now ≡ kind_head kind }
{
    match kind {
        Kind::Insert => b"[\"+I\"",
        Kind::UpdateBefore => b"[\"-U\"",
        Kind::UpdateAfter => b"[\"+U\"",
        Kind::Delete => b"[\"-D\"",
    }
}

/// Adds the items of plain values, each after a comma.
fn push_items(text: &mut Vec<u8>, values: &[Seen]) -> Result<(), AllocError>
    requires { AllByRecursion IsPlain (map seen_value values.now) }
    ensures ok { OnOk result (text.new.items ≡ text.old.items ++ items_text (map seen_value values.now)) }
    ensures adds { AddsTo text.old.items text.new.items }
{
    for value in values {
        push_item(text, value)?;
    }
    Ok(())
}

/// Adds the item of a plain value after a comma.
fn push_item(text: &mut Vec<u8>, value: &Seen) -> Result<(), AllocError>
    requires { IsPlain (seen_value value.now) }
    ensures ok { OnOk result (text.new.items ≡ text.old.items ++ item_text (seen_value value.now)) }
    ensures adds { AddsTo text.old.items text.new.items }
{
    match value {
        Seen::Null => Ok(add(text, b",null")?),
        Seen::Bool(true) => Ok(add(text, b",true")?),
        Seen::Bool(false) => Ok(add(text, b",false")?),
        Seen::Int(number) | Seen::Millis(number) => push_number(text, *number),
        Seen::Text(content) => push_text(text, content.as_bytes()),
        Seen::Bytes(_) | Seen::Day(_) => Ok(()),
    }
}

/// Adds a number after a comma.
fn push_number(text: &mut Vec<u8>, number: i64) -> Result<(), AllocError>
    ensures ok { OnOk result (text.new.items ≡ text.old.items ++ 44 ∷ signed_decimal number) }
    ensures adds { AddsTo text.old.items text.new.items }
{
    let mut buffer = Buffer::new();
    add_byte(text, b',')?;
    add(text, buffer.format(number).as_bytes())?;
    Ok(())
}

/// Adds a text that needs no escape, in quotes after a comma.
fn push_text(text: &mut Vec<u8>, content: &[u8]) -> Result<(), AllocError>
    requires { IsUnescaped content.now }
    ensures ok { OnOk result (text.new.items ≡ text.old.items ++ 44 ∷ quoted content.now) }
    ensures adds { AddsTo text.old.items text.new.items }
{
    add(text, b",\"")?;
    add(text, content)?;
    add_byte(text, b'"')?;
    Ok(())
}

/// Adds bytes to the text.
#[inline]
pub(crate) fn add(text: &mut Vec<u8>, bytes: &[u8]) -> Result<(), AllocError>
    ensures ok { OnOk result (text.new.items ≡ text.old.items ++ bytes.now) }
    ensures adds { AddsTo text.old.items text.new.items }
{
    text.extend_from_slice(bytes)?;
    Ok(())
}

/// Adds a byte to the text.
#[inline]
fn add_byte(text: &mut Vec<u8>, byte: u8) -> Result<(), AllocError>
    ensures ok { OnOk result (text.new.items ≡ text.old.items ++ byte ∷ []) }
    ensures adds { AddsTo text.old.items text.new.items }
{
    text.push(byte)?;
    Ok(())
}

/// Whether all values are plain.
pub(crate) fn are_plain(values: &[Seen]) -> bool
    ensures { IsTrue result → AllByRecursion IsPlain (map seen_value values.now) }
{
    for value in values {
        if !is_plain(value) {
            return false;
        }
    }
    true
}

/// Whether a value is plain.
fn is_plain(value: &Seen) -> bool
    ensures { IsTrue result → IsPlain (seen_value value.now) }
{
    match value {
        Seen::Text(content) => is_unescaped(content.as_bytes()),
        Seen::Bytes(_) | Seen::Day(_) => false,
        _ => true,
    }
}

/// Whether nothing of a text is escaped.
fn is_unescaped(content: &[u8]) -> bool
    ensures { IsTrue result → IsUnescaped content.now }
{
    for byte in content {
        if *byte < 32 || *byte == b'"' || *byte == b'\\' {
            return false;
        }
    }
    true
}
