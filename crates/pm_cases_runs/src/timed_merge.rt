//! How long the rewriting of runs takes.

ghost use Rattle.std.specs.Prelude.{All};
ghost use Rattle.pm_engine.specs.Covers.{IsRising};

use crate::long_merge::{files_of, read_files, rewrite_runs};
use crate::table::Table;
use crate::timed_run::say_elapsed;
use pm_cases::{Case, checksum};
use pm_run::RunFile;
use pm_scan_rows::StoredRun;
use std::time::Instant;

/// In how many milliseconds the files of runs are read, and in how many the runs are rewritten as one; what these files
/// are, and what the runs become.
pub fn answer(rt: &HostRuntime, case: &mut Case, table: Table, arguments: &str) {
    let files = files_of(case, table, arguments);
    say_sizes(case, &files);
    case.say("; ");
    let start = Instant::now(rt);
    let runs = read_files(case.alloc(), table, files);
    say_elapsed(rt, case, "read", start);
    match runs {
        Ok(runs) => time_rewriting(rt, case, table, runs),
        Err(refusal) => case.refuse(refusal),
    }
}

/// The same of runs that were read.
fn time_rewriting(rt: &HostRuntime, case: &mut Case, table: Table, runs: Vec<StoredRun>)
    requires { All IsRising runs.items }
{
    let start = Instant::now(rt);
    let files = rewrite_runs(case.alloc(), table, &runs);
    say_elapsed(rt, case, "rewritten", start);
    drop(runs);
    match files {
        Ok(files) => {
            say_sizes(case, &files);
            drop(files);
        }
        Err(refusal) => case.refuse(refusal),
    }
}

/// Says how many rows files have, how many bytes, how many files they are, and the checksum of their checksums.
fn say_sizes(case: &mut Case, files: &[RunFile]) {
    let mut rows = 0_u64;
    let mut bytes = 0_u64;
    let mut sum = 0_u32;
    for file in files {
        rows = rows.saturating_add(file.meta.rows);
        bytes = bytes.saturating_add(file.meta.size);
        sum = sum
            .wrapping_mul(31)
            .wrapping_add(checksum(file.bytes.as_bytes()));
    }
    let count = files.len();
    case.say_made(format!(in case.alloc();
        "{rows} rows, {bytes} bytes, {count} files, checksum {sum}"
    ));
}
