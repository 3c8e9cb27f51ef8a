//! Row lines, read in some columns and printed again; and rows compared as keys and as groups.

use pm_cases::Case;
use pm_model_history::key_of;
use pm_rows::{RowFault, print_row, read_row};
use pm_values::{Column, Group, Key, Kind, Row, Why};
use std::alloc::{AllocError, Global};
use std::cmp::Ordering;

/// The printed row of a line, or its fault and the index of the column.
pub fn answer(case: &mut Case, arguments: &str) {
    let (columns, line) = case.split(arguments);
    let columns = case.columns(columns);
    let line = case.bytes(line);
    match read_row(case.alloc(), &columns, &line) {
        Ok((kind, row)) => say_row(case, &columns, kind, row),
        Err(RowFault::Bad(why, index)) => {
            case.say_made(format!(in case.alloc(); "{} {index}", why_text(why)));
        }
        Err(RowFault::Memory) => case.run_out(),
    }
}

/// Says a row that isn't needed any more.
pub fn say_row(case: &mut Case, columns: &[Column], kind: Kind, row: Row) {
    case.say_line(print_row(case.alloc(), columns, kind, &row));
    drop(row);
}

/// The fault as refusals have it.
fn why_text(why: Why) -> &'static str {
    match why {
        Why::Json => "json",
        Why::Array => "array",
        Why::Kind => "kind",
        Why::Count => "count",
        Why::Null => "null",
        Why::Type => "type",
        Why::Range => "range",
        Why::Draft => "draft",
        Why::Script => "script",
    }
}

/// How two rows of some columns compare as keys, and as groups of the buckets 1 and 0. Each is copied before.
pub fn compare_answer(case: &mut Case, arguments: &str) {
    let (columns, rows) = case.split(arguments);
    let (first, second) = case.split(rows);
    let columns = case.columns(columns);
    let first = case.bytes(first);
    let second = case.bytes(second);
    match read_row(case.alloc(), &columns, &first) {
        Ok((_, row)) => compare_with(case, &columns, row, &second),
        Err(_) => case.reject(),
    }
}

/// Says how a row compares with that of a line.
fn compare_with(case: &mut Case, columns: &[Column], one: Row, line: &[u8]) {
    match read_row(case.alloc(), columns, line) {
        Ok((_, other)) => say_orders(case, &one, other),
        Err(_) => case.reject(),
    }
    drop(one);
}

/// Says how two rows compare.
fn say_orders(case: &mut Case, one: &Row, other: Row) {
    let alloc = case.alloc();
    match (key_of_all(alloc, one), key_of_all(alloc, &other)) {
        (Ok(one), Ok(other)) => say_keys(case, one, other),
        _ => case.run_out(),
    }
    case.say(" ");
    match (group_of(alloc, one, 1), group_of(alloc, &other, 0)) {
        (Ok(one), Ok(other)) => say_groups(case, one, other),
        _ => case.run_out(),
    }
    drop(other);
}

/// The key of all values of a row, copied.
fn key_of_all(alloc: Global, row: &Row) -> Result<Key, AllocError> {
    let mut indexes = Vec::new(alloc);
    for (index, _) in row.values().iter().enumerate() {
        indexes.push(index)?;
    }
    key_of(alloc, &indexes, row)?.copy(alloc)
}

/// The group of a partition and a bucket, copied.
fn group_of(alloc: Global, row: &Row, bucket: u32) -> Result<Group, AllocError> {
    let partition = row.copy(alloc)?;
    Group { partition, bucket }.copy(alloc)
}

/// Says how keys compare.
fn say_keys(case: &mut Case, one: Key, other: Key) {
    case.say(order_text(one.cmp(&other)));
    drop(one);
    drop(other);
}

/// Says how groups compare.
fn say_groups(case: &mut Case, one: Group, other: Group) {
    case.say(order_text(one.cmp(&other)));
    drop(one);
    drop(other);
}

/// An order as a word.
fn order_text(order: Ordering) -> &'static str {
    match order {
        Ordering::Less => "less",
        Ordering::Equal => "equal",
        Ordering::Greater => "greater",
    }
}
