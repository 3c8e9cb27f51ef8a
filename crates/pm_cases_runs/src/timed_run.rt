//! How long the writing and the reading of a run take.

ghost use Rattle.std.specs.Prelude.{◌≡◌, false};
ghost use Rattle.pm_run.specs.Writing.{AreRising};

use crate::long_run::{count_rows, rows_of};
use crate::order::are_rising;
use crate::table::Table;
use crate::written::names;
use pm_cases::Case;
use pm_run::RunFile;
use pm_run_reader::RunReader;
use pm_run_writer::write_run;
use pm_values::Stamped;
use std::alloc::Global;
use std::io;
use std::time::Instant;

/// In how many milliseconds a run of so many rows is written in files of 65536, and in how many it is read again.
pub fn answer(rt: &HostRuntime, case: &mut Case, table: Table, count: &str) {
    let count = case.number(count);
    let rows = rows_of(case, table, count);
    if are_rising(&rows) {
        time_run(rt, case, table, rows);
    } else {
        case.reject();
        drop(rows);
    }
}

/// The same of these rows.
fn time_run(rt: &HostRuntime, case: &mut Case, table: Table, rows: Vec<Stamped>)
    requires { AreRising rows.items }
{
    let mut names = names();
    let start = Instant::now(rt);
    let written = write_run(case.alloc(), table.schema, &rows, 65536, 0, &mut names);
    say_elapsed(rt, case, "written", start);
    drop(rows);
    match written {
        Ok(files) => time_read(rt, case, table, files),
        Err(refusal) => case.refuse(refusal),
    }
}

/// Says how many milliseconds have passed.
pub fn say_elapsed(rt: &HostRuntime, case: &mut Case, what: &str, start: io::Result<Instant>) {
    let passed = match start {
        Ok(start) => start.elapsed(rt),
        Err(error) => Err(error),
    };
    match passed {
        Ok(passed) => case.say_made(format!(in case.alloc(); "{what} {} ms, ", passed.as_millis())),
        Err(error) => {
            drop(error);
            case.reject();
        }
    }
}

/// Says in how many milliseconds files are read, and how many rows they have.
fn time_read(rt: &HostRuntime, case: &mut Case, table: Table, files: Vec<RunFile>) {
    let start = Instant::now(rt);
    let mut count = 0_u64;
    for file in files {
        let more = count_file(case.alloc(), table, file);
        count = count.saturating_add(more);
    }
    say_elapsed(rt, case, "read", start);
    case.say_made(format!(in case.alloc(); "{count} rows"));
}

/// How many rows are read of a file; none where it is refused.
#[tactic(auto, using(crate::proofs::ReaderLemmas::opened_over))]
fn count_file(alloc: Global, table: Table, file: RunFile) -> u64 {
    let RunFile { meta, bytes } = file;
    let reader = RunReader::open(
        alloc,
        meta.name.as_str(),
        table.schema,
        meta.schema_id,
        bytes,
        false,
    );
    drop(meta);
    match reader {
        Ok(reader) => count_opened(alloc, reader),
        Err(refusal) => {
            drop(refusal);
            0
        }
    }
}

/// The same of a file that was opened.
fn count_opened(alloc: Global, reader: RunReader) -> u64
    requires { reader.over ≡ false }
{
    let mut reader = reader;
    let count = count_rows(alloc, &mut reader).unwrap_or(0);
    drop(reader);
    count
}
