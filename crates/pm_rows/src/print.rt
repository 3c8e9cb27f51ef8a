//! From a row to its line.

ghost use Rattle.std.specs.Prelude.{◌≡◌, ◌++◌, IfOk, Ok, OnErr, OnOk, map};
ghost use Rattle.pm_values.specs.Fits.{Fits};
ghost use Rattle.pm_values.specs.declared.value.Value.TheVariants.{Day};
ghost use Rattle.pm_row_slots.specs.Seen.{seen_value};
ghost use Rattle.pm_rows.specs.Plain.{AddsTo};
ghost use Rattle.pm_rows.specs.RowText.{data_tokens, item_data, kind_text, row_data, row_text};
ghost use Rattle.pm_rows.specs.Reading.{row_of};

use crate::plain::{add, are_plain, push_plain};
use json::Writer;
use pm_row_slots::{Seen, lend_values};
use pm_value_text::{is_day, print_date, print_hex};
use pm_values::{Column, Kind, Row};
use std::alloc::{AllocError, Global};

/// The bytes that a line by itself is given room for at once.
const LINE_ROOM: usize = 128;

/// The line of a row, without its newline: compact JSON, with hexadecimal digits in lower case. A day
/// before the year 1 or after 9999, which fits no column, is null.
pub fn print_row(
    alloc: Global,
    columns: &[Column],
    kind: Kind,
    row: &Row,
) -> Result<Vec<u8>, AllocError>
    ensures text { IfOk result (λ line. line.items ≡ row_text kind row.now) }
    ensures again { IfOk result (λ line. Fits columns.now row.now
        → row_of columns.now line.items ≡ Ok (kind, row.now)) }
{
    let mut values = Vec::new(alloc);
    lend_values(row.values(), &mut values)?;
    let mut line = Vec::with_capacity(alloc, LINE_ROOM)?;
    push_row(alloc, &mut line, kind, &values)?;
    Ok(line)
}

/// Adds the line of a row whose values lie in bytes or are lent, as `print_row` has it, to the text, which stays as it
/// was where the line can't be had. It takes memory beside the text's own only where a text has to be escaped, or for
/// bytes and days.
pub fn push_row(
    alloc: Global,
    text: &mut Vec<u8>,
    kind: Kind,
    row: &[Seen],
) -> Result<(), AllocError>
    ensures ok { OnOk result (text.new.items ≡ text.old.items ++ row_text kind (map seen_value row.now)) }
    ensures err { OnErr result (text.new.items ≡ text.old.items) }
{
    let before = text.len();
    let added = add_row(alloc, text, kind, row);
    if added.is_err() {
        text.truncate(before);
    }
    added
}

/// The same, but that a part of the line may stand after the text where memory runs out.
fn add_row(alloc: Global, text: &mut Vec<u8>, kind: Kind, row: &[Seen]) -> Result<(), AllocError>
    ensures ok { OnOk result (text.new.items ≡ text.old.items ++ row_text kind (map seen_value row.now)) }
    ensures adds { AddsTo text.old.items text.new.items }
{
    if are_plain(row) {
        push_plain(text, kind, row)
    } else {
        push_any(alloc, text, kind, row)
    }
}

/// The same, whatever the values. The line is made in a text of its own, since the writer clears much ahead in a long
/// one.
fn push_any(alloc: Global, text: &mut Vec<u8>, kind: Kind, row: &[Seen]) -> Result<(), AllocError>
    ensures ok { OnOk result (text.new.items ≡ text.old.items ++ row_text kind (map seen_value row.now)) }
    ensures adds { AddsTo text.old.items text.new.items }
{
    let line = line_of(alloc, kind, row)?;
    add(text, &line)
}

/// The line of a row, in a text of its own.
fn line_of(alloc: Global, kind: Kind, row: &[Seen]) -> Result<Vec<u8>, AllocError>
    ensures { IfOk result (λ line. line.items ≡ row_text kind (map seen_value row.now)) }
{
    let mut out = Writer::new(Vec::new(alloc));
    write_row(alloc, &mut out, kind, row)?;
    Ok(out.into_inner())
}

/// Writes the array of a row.
fn write_row(alloc: Global, out: &mut Writer, kind: Kind, values: &[Seen]) -> Result<(), AllocError>
    ensures ok { OnOk result
        (out.new.tokens ≡ out.old.tokens ++ data_tokens (row_data kind (map seen_value values.now))) }
    ensures before { out.new.before ≡ out.old.before }
{
    out.begin_array()?;
    out.string(name_of(kind))?;
    for value in values {
        write_value(alloc, out, value)?;
    }
    out.end_array()
}

/// The text that names a kind.
fn name_of(kind: Kind) -> &'static str
    ensures { result.now ≡ kind_text kind }
{
    match kind {
        Kind::Insert => "+I",
        Kind::UpdateBefore => "-U",
        Kind::UpdateAfter => "+U",
        Kind::Delete => "-D",
    }
}

/// Writes the item of a value.
fn write_value(alloc: Global, out: &mut Writer, value: &Seen) -> Result<(), AllocError>
    ensures ok { OnOk result (out.new.tokens ≡ out.old.tokens ++ data_tokens (item_data (seen_value value.now))) }
    ensures before { out.new.before ≡ out.old.before }
{
    match value {
        Seen::Null => out.null(),
        Seen::Bool(b) => out.boolean(*b),
        Seen::Int(n) | Seen::Millis(n) => out.i64(*n),
        Seen::Text(text) => out.string(text),
        Seen::Bytes(bytes) => out.string(print_hex(alloc, bytes)?.as_str()),
        Seen::Day(day) => write_day(alloc, out, *day),
    }
}

/// Writes the item of a day.
fn write_day(alloc: Global, out: &mut Writer, day: i32) -> Result<(), AllocError>
    ensures ok { OnOk result (out.new.tokens ≡ out.old.tokens ++ data_tokens (item_data (Day day))) }
    ensures before { out.new.before ≡ out.old.before }
{
    if is_day(day) {
        out.string(print_date(alloc, day)?.as_str())
    } else {
        out.null()
    }
}
