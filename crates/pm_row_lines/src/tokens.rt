//! From the tokens of a line straight to its row.

ghost use Rattle.std.specs.Prelude.{◌≡◌, [], ◌∷◌, Ok, IfSome, IsTrue};
ghost use Rattle.json.specs.Reads.{token_of};
ghost use Rattle.json.specs.Token.{begin_array, end_array};
ghost use Rattle.pm_rows.specs.Reading.{named_kind, item_at, value_at, row_of};
ghost use Rattle.pm_rows.specs.Reading.{truth_at, integer_at, whole_at, text_at, bytes_at, day_at};
ghost use Rattle.pm_row_lines.specs.Tokens.{AreItems, AreRow, BeginsKind, ReadsAs};

use crate::integers::integer_in;
use json::{Reader, Scratch, Token};
use pm_value_text::{parse_date, parse_hex};
use pm_values::{Blob, ColType, Column, Kind, Row, Txt, Value};
use std::alloc::Global;

/// The kind and the row of a line that is an array of its kind and an item for each column, each
/// of which its column takes. None of any other line, and where there was no memory.
#[tactic(auto, using(crate::proofs::TokenLemmas::row_as_read))]
pub(crate) fn read_tokens(
    alloc: Global,
    scratch: &mut Scratch,
    columns: &[Column],
    line: &[u8],
) -> Option<(Kind, Row)>
    ensures { IfSome result (λ row. row_of columns.now line.now ≡ Ok row) }
{
    let Ok(text) = simdutf8::basic::from_utf8(line) else {
        return None;
    };
    let Ok(mut reader) = Reader::new(text, scratch) else {
        return None;
    };
    take_row(alloc, columns, &mut reader)
}

/// The kind and the row of all tokens.
fn take_row(alloc: Global, columns: &[Column], reader: &mut Reader<'_>) -> Option<(Kind, Row)>
    ensures { IfSome result (λ row. AreRow columns.now reader.old row) }
{
    if !begins_array(reader) {
        return None;
    }
    let kind = take_kind(reader)?;
    let values = take_values(alloc, columns, reader)?;
    if !ends_array(reader) {
        return None;
    }
    Some((kind, Row::new(values)))
}

/// Takes a token, and whether an array begins with it.
fn begins_array(reader: &mut Reader<'_>) -> bool
    ensures { IsTrue result → reader.old ≡ begin_array ∷ reader.new }
{
    matches!(reader.next(), Some(Token::BeginArray))
}

/// Takes a token or two, and whether an array ends with the first and no other follows.
fn ends_array(reader: &mut Reader<'_>) -> bool
    ensures { IsTrue result → reader.old ≡ end_array ∷ [] }
{
    matches!(reader.next(), Some(Token::EndArray)) && reader.next().is_none()
}

/// The kind that the next token names.
fn take_kind(reader: &mut Reader<'_>) -> Option<Kind>
    ensures { IfSome result (λ kind. BeginsKind reader.old kind reader.new) }
{
    let Some(Token::String(text)) = reader.next() else {
        return None;
    };
    kind_named(text)
}

/// The kind that a text names.
fn kind_named(text: &str) -> Option<Kind>
    ensures { result ≡ named_kind text.now }
{
    match text {
        "+I" => Some(Kind::Insert),
        "-U" => Some(Kind::UpdateBefore),
        "+U" => Some(Kind::UpdateAfter),
        "-D" => Some(Kind::Delete),
        _ => None,
    }
}

/// The values of the next tokens, one for each column.
fn take_values(alloc: Global, columns: &[Column], reader: &mut Reader<'_>) -> Option<Vec<Value>>
    ensures { IfSome result (λ values. AreItems columns.now reader.old values.items reader.new) }
{
    let mut values = Vec::with_capacity(alloc, columns.len()).ok()?;
    for column in columns {
        let token = reader.next()?;
        let value = take_item(alloc, column, token)?;
        let Ok(()) = values.push(value) else {
            return None;
        };
    }
    Some(values)
}

/// The value of a token in a column.
#[tactic(auto, using(crate::proofs::TokenLemmas::item_of_value))]
fn take_item(alloc: Global, column: &Column, token: Token<'_>) -> Option<Value>
    ensures { IfSome result (ReadsAs (λ index. item_at index column.now) (token_of token.entry)) }
{
    if let Token::Null = token {
        return if column.nullable {
            Some(Value::Null)
        } else {
            None
        };
    }
    take_value(alloc, column.kind, token)
}

/// The value of a token in a column of that type.
#[tactic(auto, using(crate::proofs::TokenLemmas::millis_of_integer))]
fn take_value(alloc: Global, kind: ColType, token: Token<'_>) -> Option<Value>
    ensures { IfSome result (ReadsAs (λ index. value_at index kind) (token_of token.entry)) }
{
    match kind {
        ColType::Boolean => take_truth(token),
        ColType::TinyInt => take_whole(i64::from(i8::MIN), i64::from(i8::MAX), token),
        ColType::SmallInt => take_whole(i64::from(i16::MIN), i64::from(i16::MAX), token),
        ColType::Int => take_whole(i64::from(i32::MIN), i64::from(i32::MAX), token),
        ColType::BigInt => take_whole(i64::MIN, i64::MAX, token),
        ColType::Text => take_text(alloc, token),
        ColType::Bytes => take_bytes(alloc, token),
        ColType::Date => take_day(token),
        ColType::Timestamp => Some(Value::Millis(take_integer(i64::MIN, i64::MAX, token)?)),
    }
}

/// The value of a token in a BOOLEAN column.
fn take_truth(token: Token<'_>) -> Option<Value>
    ensures { IfSome result (ReadsAs truth_at (token_of token.entry)) }
{
    match token {
        Token::Bool(b) => Some(Value::Bool(b)),
        _ => None,
    }
}

/// The value of a token in a column of integers from the low one to the high one.
#[tactic(auto, using(crate::proofs::TokenLemmas::whole_of_integer))]
fn take_whole(low: i64, high: i64, token: Token<'_>) -> Option<Value>
    ensures { IfSome result (ReadsAs (λ index. whole_at index low high) (token_of token.entry)) }
{
    Some(Value::Int(take_integer(low, high, token)?))
}

/// The integer of a token, from the low one to the high one.
fn take_integer(low: i64, high: i64, token: Token<'_>) -> Option<i64>
    ensures { IfSome result (ReadsAs (λ index. integer_at index low high) (token_of token.entry)) }
{
    let Token::Number(text) = token else {
        return None;
    };
    let n = integer_in(text)?;
    if low <= n && n <= high { Some(n) } else { None }
}

/// The value of a token in a STRING column.
fn take_text(alloc: Global, token: Token<'_>) -> Option<Value>
    ensures { IfSome result (ReadsAs text_at (token_of token.entry)) }
{
    let Token::String(text) = token else {
        return None;
    };
    match Txt::from_str(alloc, text) {
        Ok(text) => Some(Value::Text(text)),
        Err(_) => None,
    }
}

/// The value of a token in a BYTES column.
fn take_bytes(alloc: Global, token: Token<'_>) -> Option<Value>
    ensures { IfSome result (ReadsAs bytes_at (token_of token.entry)) }
{
    let Token::String(text) = token else {
        return None;
    };
    match parse_hex(alloc, text) {
        Ok(Some(bytes)) => Some(Value::Bytes(Blob::new(bytes))),
        _ => None,
    }
}

/// The value of a token in a DATE column.
fn take_day(token: Token<'_>) -> Option<Value>
    ensures { IfSome result (ReadsAs day_at (token_of token.entry)) }
{
    let Token::String(text) = token else {
        return None;
    };
    match parse_date(text) {
        Some(day) => Some(Value::Day(day)),
        None => None,
    }
}
