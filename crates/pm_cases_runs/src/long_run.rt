//! Runs of so many rows as are asked for, written and read again.

ghost use Rattle.std.specs.Prelude.{◌≡◌, ◌≤◌, false};
ghost use Rattle.pm_run.specs.Writing.{AreRising};

use crate::order::are_rising;
use crate::rows::push_line;
use crate::run_file::say_blocks;
use crate::table::Table;
use crate::written::{names, say_meta};
use pm_cases::{Case, checksum, say_between};
use pm_run::RunFile;
use pm_run_reader::RunReader;
use pm_run_writer::write_run;
use pm_values::{Refusal, Stamped};
use std::alloc::Global;

/// The draft of the table.
pub const DRAFT: &str =
    r#"{"fields":[{"name":"id","type":"BIGINT"},{"name":"v","type":"STRING"}],"primaryKeys":["id"]}"#;

/// The files of a run of so many rows, each of at most so many, and what is read of them; or the refusal.
pub fn answer(case: &mut Case, table: Table, arguments: &str) {
    let (count, limit) = case.split(arguments);
    let count = case.number(count);
    let limit = case.size(limit);
    let rows = rows_of(case, table, count);
    if limit == 0 {
        case.reject();
    } else if are_rising(&rows) {
        say_run(case, table, &rows, limit);
    } else {
        case.reject();
    }
    drop(rows);
}

/// The rows of the keys from 1 on, so many, each with its key as its sequence number and in its text.
pub fn rows_of(case: &mut Case, table: Table, count: u64) -> Vec<Stamped> {
    let mut rows = Vec::new(case.alloc());
    for index in 0..count {
        let key = index.saturating_add(1);
        if let Some(line) = case.made(format!(in case.alloc(); "[\"+I\",{key},\"v{key}\"]")) {
            push_line(case, table, &mut rows, key, line.as_str());
        }
    }
    rows
}

/// Says the files of a run of rows.
fn say_run(case: &mut Case, table: Table, rows: &[Stamped], limit: usize)
    requires rising { AreRising rows.now }
    requires limit { 1 ≤ limit }
{
    let mut names = names();
    match write_run(case.alloc(), table.schema, rows, limit, 0, &mut names) {
        Ok(files) => say_files(case, table, files),
        Err(refusal) => case.refuse(refusal),
    }
}

/// Says the files of a run.
pub fn say_files(case: &mut Case, table: Table, files: Vec<RunFile>) {
    let mut is_later = false;
    for file in files {
        say_between(case, is_later, "\t");
        say_file(case, table, file);
        is_later = true;
    }
}

/// Says what is known of a file, its checksum, how many rows are read of it, and how many each block has; or the
/// refusal.
#[tactic(auto, using(crate::proofs::ReaderLemmas::opened_over))]
fn say_file(case: &mut Case, table: Table, file: RunFile) {
    let RunFile { meta, bytes } = file;
    say_meta(case, table, &meta);
    case.say_made(format!(in case.alloc(); "\t{}\t", checksum(bytes.as_bytes())));
    match RunReader::open(
        case.alloc(),
        meta.name.as_str(),
        table.schema,
        table.schema.id,
        bytes,
        false,
    ) {
        Ok(reader) => say_counts(case, reader),
        Err(refusal) => case.refuse(refusal),
    }
    drop(meta);
}

/// Says how many rows are read of a file that was opened, and how many each block has; or the refusal.
fn say_counts(case: &mut Case, reader: RunReader)
    requires { reader.over ≡ false }
{
    let mut reader = reader;
    match count_rows(case.alloc(), &mut reader) {
        Ok(count) => case.say_made(format!(in case.alloc(); "{count} rows\t")),
        Err(refusal) => case.refuse(refusal),
    }
    say_blocks(case, &reader);
    drop(reader);
}

/// How many rows are left.
pub fn count_rows(alloc: Global, reader: &mut RunReader) -> Result<u64, Refusal>
    requires { reader.old.over ≡ false }
{
    for count in 0..u64::MAX {
        match reader.next(alloc) {
            Ok(Some(row)) => drop(row),
            Ok(None) => return Ok(count),
            Err(refusal) => return Err(refusal),
        }
    }
    Ok(u64::MAX)
}
