//! Binary rows, written and read, and the hash of a body.

use crate::row::say_row;
use pm_binrow::{BinFault, bucket_of, from_binary, hash, to_binary};
use pm_cases::{Case, read_type};
use pm_rows::read_row;
use pm_values::{ColType, Column, Kind, Row, Txt};
use std::alloc::{AllocError, Global};

/// The digits of a row line's binary row, and the row that is read from these; or the row of digits, or `bad`.
pub fn answer(case: &mut Case, arguments: &str) {
    let (types, row) = case.split(arguments);
    let types = read_types(case, types);
    match columns_of(case.alloc(), &types) {
        Ok(columns) => answer_of(case, &types, &columns, row),
        Err(_) => case.run_out(),
    }
}

/// The same in columns of the types.
fn answer_of(case: &mut Case, types: &[ColType], columns: &[Column], row: &str) {
    if !row.starts_with('[') {
        let bytes = case.digits(row);
        return say_binary(case, types, columns, &bytes);
    }
    match read_row(case.alloc(), columns, row.as_bytes()) {
        Ok((_, row)) => say_written(case, types, columns, row),
        Err(_) => case.reject(),
    }
}

/// Says the digits of a row's binary row, and the row that is read from these.
fn say_written(case: &mut Case, types: &[ColType], columns: &[Column], row: Row) {
    match to_binary(case.alloc(), types, &row) {
        Ok(bytes) => {
            case.say_digits(&bytes);
            case.say("\t");
            say_binary(case, types, columns, &bytes);
        }
        Err(_) => case.run_out(),
    }
    drop(row);
}

/// Says the row that bytes are, as a row line; or `bad`.
fn say_binary(case: &mut Case, types: &[ColType], columns: &[Column], bytes: &[u8]) {
    match from_binary(case.alloc(), types, bytes) {
        Ok(row) => say_row(case, columns, Kind::Insert, row),
        Err(BinFault::Bad) => case.say("bad"),
        Err(BinFault::Memory) => case.run_out(),
    }
}

/// Types with blanks between them, or none.
fn read_types(case: &mut Case, text: &str) -> Vec<ColType> {
    let mut types = Vec::new(case.alloc());
    for name in text.split_whitespace() {
        match read_type(name) {
            Some(kind) => case.push(&mut types, kind),
            None => case.reject(),
        }
    }
    types
}

/// Nullable columns of these types.
fn columns_of(alloc: Global, types: &[ColType]) -> Result<Vec<Column>, AllocError> {
    let mut columns = Vec::with_capacity(alloc, types.len())?;
    for kind in types {
        columns.push(Column {
            id: 0,
            name: Txt::from_str(alloc, "")?,
            kind: *kind,
            nullable: true,
        })?;
    }
    Ok(columns)
}

/// The hash of a body of words of four bytes, and its bucket.
pub fn hash_answer(case: &mut Case, arguments: &str) {
    let (digits, buckets) = case.split(arguments);
    let body = case.digits(digits);
    let buckets = case.small(buckets);
    if body.len() % 4 != 0 || buckets == 0 {
        return case.reject();
    }
    let hash = hash(&body);
    let bucket = bucket_of(hash, buckets);
    case.say_made(format!(in case.alloc(); "{hash}\t{bucket}"));
}
