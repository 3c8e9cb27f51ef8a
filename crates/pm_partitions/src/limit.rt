//! How long the text of a partition's value may be.

ghost use Rattle.std.specs.Prelude.{◌≡◌, length, nat_lt};
ghost use Rattle.std.specs.Fmt.{signed_decimal};
ghost use Rattle.std.specs.List.{list_any};
ghost use Rattle.pm_partitions.specs.Names.{is_too_long};

use pm_values::Value;

/// How many bytes the text of a partition's value has at most, before it is escaped.
pub const LONGEST_TEXT: usize = 60;

/// Whether the text of some value of a partition has more bytes than may be.
pub fn exceeds_limit(partition: &[Value]) -> bool
    ensures { result ≡ list_any is_too_long partition.now }
{
    for value in partition {
        if is_too_long(value) {
            return true;
        }
    }
    false
}

/// Whether the text of a value has more bytes than may be.
pub fn is_too_long(value: &Value) -> bool
    ensures { result ≡ is_too_long value.now }
{
    match value {
        Value::Text(text) => text.as_bytes().len() > LONGEST_TEXT,
        Value::Bytes(bytes) => bytes.as_bytes().len() > LONGEST_TEXT / 2,
        Value::Int(number) => is_long_number(*number),
        Value::Millis(millis) => is_long_number(*millis),
        Value::Null | Value::Bool(_) => false,
        Value::Day(_) => false,
    }
}

/// Whether the text of a number has more bytes than may be, which it never has.
fn is_long_number(number: i64) -> bool
    ensures { result ≡ nat_lt 60 (length (signed_decimal number)) }
{
    let _number = number;
    false
}
