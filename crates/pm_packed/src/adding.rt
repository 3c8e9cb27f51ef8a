//! Values, packed.

ghost use Rattle.std.specs.Prelude.{◌≡◌, ◌<◌, ◌^◌, ◌++◌, ◌∷◌, [], OnOk, length};
ghost use Rattle.std.specs.Int.{cast_unsigned, to_le_bytes, w32, w64};
ghost use Rattle.pm_packed.specs.Values.{Adds, AreCodeOf, IsCodeOf};

use pm_values::Value;
use std::alloc::AllocError;

/// Adds values.
pub(crate) fn add_values(out: &mut Vec<u8>, values: &[Value]) -> Result<(), AllocError>
    ensures { OnOk result (Adds (AreCodeOf values.now) out.old.items out.new.items) }
{
    for value in values {
        add_value(out, value)?;
    }
    Ok(())
}

/// Adds a value. Out of memory is also answered for one whose length 32 bits don't hold.
fn add_value(out: &mut Vec<u8>, value: &Value) -> Result<(), AllocError>
    ensures { OnOk result (Adds (IsCodeOf value.now) out.old.items out.new.items) }
{
    match value {
        Value::Null => add_tag(out, 0),
        Value::Bool(truth) => add_tag(out, if *truth { 2 } else { 1 }),
        Value::Int(number) => add_whole(out, 3, *number),
        Value::Text(text) => add_content(out, 4, text.as_bytes()),
        Value::Bytes(content) => add_content(out, 5, content.as_bytes()),
        Value::Day(day) => add_day(out, 6, *day),
        Value::Millis(millis) => add_whole(out, 7, *millis),
    }
}

/// Adds a tag alone.
fn add_tag(out: &mut Vec<u8>, tag: u8) -> Result<(), AllocError>
    ensures { OnOk result (out.new.items ≡ out.old.items ++ tag ∷ []) }
{
    out.push(tag)?;
    Ok(())
}

/// Adds a number of eight bytes, after its tag.
fn add_whole(out: &mut Vec<u8>, tag: u8, number: i64) -> Result<(), AllocError>
    ensures { OnOk result (out.new.items ≡ out.old.items ++ tag ∷ to_le_bytes w64 (cast_unsigned w64 number)) }
{
    out.push(tag)?;
    let bytes = number.to_le_bytes();
    out.extend_from_slice(&bytes)
}

/// Adds a number of four bytes, after its tag.
fn add_day(out: &mut Vec<u8>, tag: u8, number: i32) -> Result<(), AllocError>
    ensures { OnOk result (out.new.items ≡ out.old.items ++ tag ∷ to_le_bytes w32 (cast_unsigned w32 number)) }
{
    out.push(tag)?;
    let bytes = number.to_le_bytes();
    out.extend_from_slice(&bytes)
}

/// Adds bytes, after their tag and their length.
fn add_content(out: &mut Vec<u8>, tag: u8, content: &[u8]) -> Result<(), AllocError>
    ensures added { OnOk result (out.new.items
        ≡ out.old.items ++ tag ∷ (to_le_bytes w32 (length content.now) ++ content.now)) }
    ensures short { OnOk result (length content.now < 2 ^ 32) }
{
    let Ok(len) = u32::try_from(content.len()) else {
        return Err(AllocError);
    };
    out.push(tag)?;
    let bytes = len.to_le_bytes();
    out.extend_from_slice(&bytes)?;
    out.extend_from_slice(content)
}
