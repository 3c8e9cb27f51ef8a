//! The folders of a table's data files.

ghost use Rattle.std.specs.Prelude.{◌≡◌, ◌++◌, ◌<◌, length, IfOk, OnOk, string_bytes, decimal};
ghost use Rattle.std.specs.Fmt.{signed_decimal};
ghost use Rattle.std.specs.List.{AllZip};
ghost use Rattle.pm_schema.specs.Folder.{HasText, FitsPartition, escaped, escaped_byte, folder_text, is_plain, part_text, parts_text, upper_digit, value_text};

use crate::schema::TableSchema;
use pm_value_text::{print_date, print_hex};
use pm_values::{Group, Txt, Value};
use std::alloc::{AllocError, Global};

/// The text of a partition's value, before it is escaped.
pub fn partition_text(alloc: Global, value: &Value) -> Result<Txt, AllocError>
    requires { HasText value.now }
    ensures { IfOk result (λ t. t ≡ value_text value.now) }
{
    match value {
        Value::Null => Txt::from_str(alloc, ""),
        Value::Bool(true) => Txt::from_str(alloc, "true"),
        Value::Bool(false) => Txt::from_str(alloc, "false"),
        Value::Int(n) | Value::Millis(n) => print_number(alloc, *n),
        Value::Text(text) => text.copy(alloc),
        Value::Bytes(bytes) => Txt::from_str(alloc, print_hex(alloc, bytes.as_bytes())?.as_str()),
        Value::Day(day) => Txt::from_str(alloc, print_date(alloc, *day)?.as_str()),
    }
}

/// A number in decimal.
fn print_number(alloc: Global, number: i64) -> Result<Txt, AllocError>
    ensures { IfOk result (λ t. t ≡ signed_decimal number) }
{
    let text = format!(in alloc; "{number}")?;
    Txt::from_str(alloc, text.as_str())
}

/// The path of a group's folder.
pub fn folder_of(alloc: Global, schema: &TableSchema, group: &Group) -> Result<Txt, AllocError>
    requires { FitsPartition schema.now group.now }
    ensures { IfOk result (λ t. t ≡ folder_text schema.now group.now) }
{
    let mut path = String::new(alloc);
    push_parts(
        alloc,
        &mut path,
        schema.partition.as_slice(),
        group.partition.values(),
    )?;
    let bucket = format!(in alloc; "bucket-{}", group.bucket)?;
    path.push_str(bucket.as_str())?;
    Txt::from_str(alloc, path.as_str())
}

/// Adds the folders of the values of partition columns.
fn push_parts(
    alloc: Global,
    path: &mut String,
    columns: &[Txt],
    values: &[Value],
) -> Result<(), AllocError>
    requires { AllZip (λ column value. HasText value) columns.now values.now }
    ensures { OnOk result (string_bytes path.new ≡ string_bytes path.old ++ parts_text columns.now values.now) }
{
    for (index, column) in columns.iter().enumerate() {
        push_part(alloc, path, column, &values[index])?;
    }
    Ok(())
}

/// Adds the folder of a value of a partition column.
fn push_part(
    alloc: Global,
    path: &mut String,
    column: &Txt,
    value: &Value,
) -> Result<(), AllocError>
    requires { HasText value.now }
    ensures { OnOk result (string_bytes path.new ≡ string_bytes path.old ++ part_text column.now value.now) }
{
    let text = partition_text(alloc, value)?;
    path.push_str(column.as_str())?;
    path.push_str("=")?;
    push_escaped(path, text.as_bytes())?;
    path.push_str("/")?;
    Ok(())
}

/// Adds a text in which bytes other than letters, digits, `.`, `_` and `-` are escaped.
fn push_escaped(path: &mut String, text: &[u8]) -> Result<(), AllocError>
    ensures { OnOk result (string_bytes path.new ≡ string_bytes path.old ++ escaped text.now) }
{
    for b in text {
        push_byte(path, *b)?;
    }
    Ok(())
}

/// Adds a byte: itself, or `%` and two digits.
fn push_byte(path: &mut String, b: u8) -> Result<(), AllocError>
    ensures { OnOk result (string_bytes path.new ≡ string_bytes path.old ++ escaped_byte b) }
{
    if is_plain(b) {
        path.push(char::from(b))
    } else {
        path.push('%')?;
        path.push(upper_digit(b / 16))?;
        path.push(upper_digit(b % 16))
    }
}

/// Whether the byte stands for itself.
fn is_plain(b: u8) -> bool
    ensures { result ≡ is_plain b }
{
    b.is_ascii_alphabetic() || b.is_ascii_digit() || b == b'.' || b == b'_' || b == b'-'
}

/// The digit of a number below 16, in upper case.
fn upper_digit(n: u8) -> char
    requires { n < 16 }
    ensures value { result ≡ upper_digit n }
    ensures ascii { result < 128 }
{
    char::from(if n < 10 { n + b'0' } else { n + 55 })
}
