//! Rows with their sequence numbers, read and printed.

use crate::table::Table;
use pm_cases::{Case, say_between};
use pm_model_history::key_of;
use pm_rows::{print_row, read_row};
use pm_values::{Key, Kind, Row, Stamped};
use std::alloc::{AllocError, Global};

/// Rows with a TAB between each two, or none; each is `NUMBER:` and its line.
pub fn read_rows(case: &mut Case, table: Table, text: &str) -> Vec<Stamped> {
    let mut rows = Vec::new(case.alloc());
    if text.is_empty() {
        return rows;
    }
    for word in text.split('\t') {
        let (number, line) = case.split_at(word, ':');
        let seq = case.number(number);
        push_line(case, table, &mut rows, seq, line);
    }
    rows
}

/// Adds the row of a line, with this sequence number.
pub fn push_line(case: &mut Case, table: Table, rows: &mut Vec<Stamped>, seq: u64, line: &str) {
    match read_row(
        case.alloc(),
        table.schema.columns.as_slice(),
        line.as_bytes(),
    ) {
        Ok((kind, row)) => push_row(case, table, rows, seq, kind, row),
        Err(_) => case.reject(),
    }
}

/// Adds a row with its key.
fn push_row(
    case: &mut Case,
    table: Table,
    rows: &mut Vec<Stamped>,
    seq: u64,
    kind: Kind,
    row: Row,
) {
    match key_of(case.alloc(), table.primary, &row) {
        Ok(key) => {
            let stamped = Stamped {
                key,
                seq,
                kind,
                row,
            };
            case.push(rows, stamped);
        }
        Err(_) => {
            drop(row);
            case.run_out();
        }
    }
}

/// Says rows with a TAB between each two; `nothing` where there is none.
pub fn say_rows(case: &mut Case, table: Table, rows: &[Stamped]) {
    if rows.is_empty() {
        case.say("nothing");
    }
    let mut is_later = false;
    for row in rows {
        say_between(case, is_later, "\t");
        say_stamped(case, table, row);
        is_later = true;
    }
}

/// Says a row: its key, its sequence number and its line.
pub fn say_stamped(case: &mut Case, table: Table, row: &Stamped) {
    say_key(case, table, &row.key);
    case.say_made(format!(in case.alloc(); " {}:", row.seq));
    case.say_line(print_row(
        case.alloc(),
        table.schema.columns.as_slice(),
        row.kind,
        &row.row,
    ));
}

/// Says a key: its values as they stand in a row line.
pub fn say_key(case: &mut Case, table: Table, key: &Key) {
    match row_of(case.alloc(), key) {
        Ok(row) => say_key_row(case, table, row),
        Err(_) => case.run_out(),
    }
}

/// Says the row of a key's values.
fn say_key_row(case: &mut Case, table: Table, row: Row) {
    if let Some(line) = case.made(print_row(case.alloc(), table.keys, Kind::Insert, &row)) {
        case.say("[");
        case.say_bytes(line.as_slice().strip_prefix(b"[\"+I\",").unwrap_or(b"]"));
    }
    drop(row);
}

/// The row of a key's values.
fn row_of(alloc: Global, key: &Key) -> Result<Row, AllocError> {
    let mut values = Vec::new(alloc);
    for value in key.values() {
        values.push(value.copy(alloc)?)?;
    }
    Ok(Row::new(values))
}
