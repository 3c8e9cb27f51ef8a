//! Runs of so many rows as are asked for, each a file, that are rewritten as one run.

ghost use Rattle.std.specs.Prelude.{◌≡◌, All, IfOk, OnOk, map};
ghost use Rattle.pm_options.specs.declared.kinds.EngineKind.TheVariants as engines;
ghost use Rattle.pm_engine.specs.Covers.{IsRising};

use crate::long_run::say_files;
use crate::order::are_rising;
use crate::rows::push_line;
use crate::table::Table;
use crate::written::names;
use pm_cases::Case;
use pm_compact::{drops_by_kind_law, rewrite};
use pm_engines::TableEngine;
use pm_run::{RunFile, order_law};
use pm_run_form::TableForm;
use pm_run_reader::RunReader;
use pm_run_writer::write_data;
use pm_scan_rows::{StoredRun, written_sources};
use pm_schema::EngineKind;
use pm_values::{Refusal, Stamped};
use std::alloc::{AllocError, Global};

/// Which rows runs have.
#[derive(Clone, Copy)]
struct Shape {
    /// How many keys there are, from 1 on.
    keys: u64,
    runs: u64,
    /// Whether each key stands in one run, and not in all.
    is_spread: bool,
}

/// The files that runs become, without droppable rows, and what is read of them; or the refusal.
pub fn answer(case: &mut Case, table: Table, arguments: &str) {
    let files = files_of(case, table, arguments);
    match read_files(case.alloc(), table, files) {
        Ok(runs) => say_rewritten(case, table, runs),
        Err(refusal) => case.refuse(refusal),
    }
}

/// The same of runs that were read.
fn say_rewritten(case: &mut Case, table: Table, runs: Vec<StoredRun>)
    requires { All IsRising runs.items }
{
    let files = rewrite_runs(case.alloc(), table, &runs);
    drop(runs);
    match files {
        Ok(files) => say_files(case, table, files),
        Err(refusal) => case.refuse(refusal),
    }
}

// ---- the runs

/// The files of the runs that the words tell, each of one, the oldest first.
pub fn files_of(case: &mut Case, table: Table, arguments: &str) -> Vec<RunFile> {
    let shape = read_shape(case, arguments);
    let mut files = Vec::new(case.alloc());
    let mut number = 0_u64;
    for run in 0..shape.runs {
        let rows = rows_of(case, table, shape, run, number);
        number = number.saturating_add(rows.len() as u64);
        push_file(case, table, &mut files, &rows);
        drop(rows);
    }
    files
}

/// How many rows there are in how many runs, and whether their keys are `spread` over the runs or the `same` in each.
fn read_shape(case: &mut Case, arguments: &str) -> Shape {
    let (count, rest) = case.split(arguments);
    let (runs, shape) = case.split(rest);
    let count = case.number(count);
    let runs = case.number(runs);
    if shape != "spread" && shape != "same" {
        case.reject();
    }
    let is_spread = shape == "spread";
    Shape {
        keys: if is_spread {
            count
        } else {
            share_of(count, runs)
        },
        runs,
        is_spread,
    }
}

/// How many of the rows each run has.
fn share_of(count: u64, runs: u64) -> u64 {
    if runs == 0 { 0 } else { count / runs }
}

/// The rows of a run, by rising key, with the numbers after this one; the text of each has its number.
fn rows_of(case: &mut Case, table: Table, shape: Shape, run: u64, before: u64) -> Vec<Stamped> {
    let mut rows = Vec::new(case.alloc());
    let mut number = before;
    for index in 0..shape.keys {
        let key = index.saturating_add(1);
        if has_key(shape, run, key) {
            number = number.saturating_add(1);
            push_numbered(case, table, &mut rows, key, number);
        }
    }
    rows
}

/// Whether a run has a row of the key. Where keys are spread a hash of it tells its run.
fn has_key(shape: Shape, run: u64, key: u64) -> bool {
    if shape.runs == 0 || !shape.is_spread {
        return true;
    }
    (key.wrapping_mul(0x9E37_79B9_7F4A_7C15) >> 32) % shape.runs == run
}

/// Adds the row of the key with the number.
fn push_numbered(case: &mut Case, table: Table, rows: &mut Vec<Stamped>, key: u64, number: u64) {
    if let Some(line) = case.made(format!(in case.alloc(); "[\"+I\",{key},\"v{number}\"]")) {
        push_line(case, table, rows, number, line.as_str());
    }
}

/// Adds the file of rows, as a write makes it. No rows, and rows whose keys don't rise, are no case.
fn push_file(case: &mut Case, table: Table, files: &mut Vec<RunFile>, rows: &[Stamped]) {
    if rows.is_empty() {
        return case.reject();
    }
    if !are_rising(rows) {
        return case.reject();
    }
    let mut names = names();
    match write_data(case.alloc(), table.schema, rows, 0, &mut names) {
        Ok(file) => case.push(files, file),
        Err(refusal) => case.refuse(refusal),
    }
}

// ---- what they become

/// The runs of files, each of one.
pub fn read_files(
    alloc: Global,
    table: Table,
    files: Vec<RunFile>,
) -> Result<Vec<StoredRun>, Refusal>
    ensures { IfOk result (λ runs. All IsRising runs.items) }
{
    let mut runs = Vec::new(alloc);
    for file in files {
        let run = read_file(alloc, table, file)?;
        push_run(&mut runs, run)?;
    }
    Ok(runs)
}

/// Adds a run whose keys rise.
#[tactic(auto, using(crate::proofs::RunLemmas::rising_next))]
fn push_run(runs: &mut Vec<StoredRun>, run: StoredRun) -> Result<(), AllocError>
    requires runs { All IsRising runs.old.items }
    requires rising { IsRising run }
    ensures { OnOk result (All IsRising runs.new.items) }
{
    runs.push(run)?;
    Ok(())
}

/// The run of a file.
fn read_file(alloc: Global, table: Table, file: RunFile) -> Result<StoredRun, Refusal>
    ensures { IfOk result IsRising }
{
    order_law();
    let RunFile { meta, bytes } = file;
    let reader = RunReader::open(
        alloc,
        meta.name.as_str(),
        table.schema,
        meta.schema_id,
        bytes,
        false,
    );
    drop(meta);
    let reader = reader?;
    let mut run = StoredRun::new(alloc);
    run.append(alloc, reader)?;
    Ok(run)
}

/// The files that runs become at level 5 without droppable rows, as where all runs of a group are taken. A table of
/// another engine than the one that keeps last rows has none here.
pub fn rewrite_runs(
    alloc: Global,
    table: Table,
    runs: &[StoredRun],
) -> Result<Vec<RunFile>, Refusal>
    requires { All IsRising runs.now }
{
    match table.schema.options.engine {
        EngineKind::Deduplicate => rewrite_by_last(alloc, table, runs),
        _ => Ok(Vec::new(alloc)),
    }
}

/// The same of a table that keeps last rows.
#[tactic(auto, using(crate::proofs::RunLemmas::given_for, crate::proofs::RunLemmas::rising_sources))]
fn rewrite_by_last(alloc: Global, table: Table, runs: &[StoredRun]) -> Result<Vec<RunFile>, Refusal>
    requires rising { All IsRising runs.now }
    requires engine { table.schema.now.options.engine ≡ engines.Deduplicate }
{
    drops_by_kind_law();
    #[tactic(auto, using(crate::proofs::RunLemmas::serves_last))]
    let engine = TableEngine::of_schema(alloc, table.schema)?;
    let form = TableForm::of(alloc, table.schema)?;
    let older_first = written_sources(alloc, runs, &form)?;
    let mut names = names();
    let files = rewrite(
        alloc,
        &engine,
        table.schema,
        older_first,
        5,
        true,
        &mut names,
    );
    drop(engine);
    files
}
