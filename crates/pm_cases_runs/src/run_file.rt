//! Files of rows, read row by row and block by block.

ghost use Rattle.std.specs.Prelude.{◌≡◌, false};

use crate::rows::say_stamped;
use crate::table::Table;
use pm_cases::Case;
use pm_run_reader::RunReader;
use pm_values::{Blob, Refusal, Stamped};

/// The rows of a file of a table at a path, written with the schema of an id, and its blocks; or the refusal.
pub fn answer(case: &mut Case, table: Table, arguments: &str) {
    let (path, text) = case.split(arguments);
    let (id, text) = case.split(text);
    let (which, digits) = case.split(text);
    let id = case.number(id);
    let bytes = Blob::new(case.digits(digits));
    match which {
        "data" => say_file(case, table, path, id, bytes, false),
        "changes" => say_file(case, table, path, id, bytes, true),
        _ => case.reject(),
    }
}

/// Says the rows of a file and how many each block has; or the refusal.
#[tactic(auto, using(crate::proofs::ReaderLemmas::opened_over))]
pub fn say_file(
    case: &mut Case,
    table: Table,
    path: &str,
    schema_id: u64,
    bytes: Blob,
    changes: bool,
) {
    match RunReader::open(case.alloc(), path, table.schema, schema_id, bytes, changes) {
        Ok(reader) => say_opened(case, table, reader),
        Err(refusal) => case.refuse(refusal),
    }
}

/// The same, of a file that was opened.
fn say_opened(case: &mut Case, table: Table, reader: RunReader)
    requires { reader.over ≡ false }
{
    let mut reader = reader;
    let rows = say_rows(case, table, &mut reader);
    say_end(case, rows);
    case.say("\t");
    say_blocks(case, &reader);
    drop(reader);
}

/// Says each row and a TAB.
fn say_rows(case: &mut Case, table: Table, reader: &mut RunReader) -> Result<(), Refusal>
    requires { reader.old.over ≡ false }
{
    for _ in 0..u64::MAX {
        match reader.next(case.alloc()) {
            Ok(Some(row)) => say_row(case, table, row),
            Ok(None) => return Ok(()),
            Err(refusal) => return Err(refusal),
        }
    }
    Ok(())
}

/// Says a row and a TAB.
fn say_row(case: &mut Case, table: Table, row: Stamped) {
    say_stamped(case, table, &row);
    case.say("\t");
    drop(row);
}

/// Says of each block its offset, how many rows it has, and a blank; and how that ended.
pub fn say_blocks(case: &mut Case, reader: &RunReader) {
    let blocks = push_blocks(case, reader);
    say_end(case, blocks);
}

/// Says of each block its offset, how many rows it has, and a blank.
#[tactic(auto, using(crate::proofs::ReaderLemmas::block_within))]
fn push_blocks(case: &mut Case, reader: &RunReader) -> Result<(), Refusal> {
    let mut offset = reader.first();
    for _ in 0..u64::MAX {
        match reader.block_at(case.alloc(), offset) {
            Ok(Some((rows, next))) => {
                say_block(case, offset, rows);
                offset = next;
            }
            Ok(None) => return Ok(()),
            Err(refusal) => return Err(refusal),
        }
    }
    Ok(())
}

/// Says the offset of a block and how many rows it has.
fn say_block(case: &mut Case, offset: usize, rows: Vec<Stamped>) {
    case.say_made(format!(in case.alloc(); "{offset}:{} ", rows.len()));
    drop(rows);
}

/// Says `end`, or the refusal.
fn say_end(case: &mut Case, outcome: Result<(), Refusal>) {
    match outcome {
        Ok(()) => case.say("end"),
        Err(refusal) => case.refuse(refusal),
    }
}
