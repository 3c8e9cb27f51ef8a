//! Runs made into one.

ghost use Rattle.std.specs.Prelude.{◌≡◌, All, IfOk, OnOk};
ghost use Rattle.pm_options.specs.declared.kinds.EngineKind.TheVariants as engines;
ghost use Rattle.pm_engine.specs.Covers.{IsRising};
ghost use Rattle.pm_merge.specs.Merge.{runs_of};

use crate::order::are_rising;
use crate::rows::{read_rows, say_rows};
use crate::table::Table;
use pm_cases::Case;
use pm_dedup::Deduplicate;
use pm_merge::merge_runs;
use pm_schema::EngineKind;
use pm_values::Stamped;
use std::alloc::AllocError;

/// The rows of the runs of a table that keeps last rows made into one, with `keep` or `drop`.
pub fn answer(case: &mut Case, table: Table, arguments: &str) {
    let (word, runs) = match arguments.split_once('\t') {
        Some((word, runs)) => (word, Some(runs)),
        None => (arguments, None),
    };
    match word {
        "keep" => merge(case, table, runs, false),
        "drop" => merge(case, table, runs, true),
        _ => case.reject(),
    }
}

/// Says the rows of the runs made into one.
fn merge(case: &mut Case, table: Table, text: Option<&str>, drop_rows: bool) {
    match read_runs(case, table, text) {
        Ok(runs) => merge_of(case, table, runs, drop_rows),
        Err(_) => case.run_out(),
    }
}

/// The same of runs that were read.
fn merge_of(case: &mut Case, table: Table, runs: Vec<Vec<Stamped>>, drop_rows: bool)
    requires { All IsRising (runs_of runs.items) }
{
    match table.schema.options.engine {
        EngineKind::Deduplicate => merge_by_last(case, table, runs, drop_rows),
        _ => {
            drop(runs);
            case.reject();
        }
    }
}

/// The same by the engine that keeps last rows.
fn merge_by_last(case: &mut Case, table: Table, runs: Vec<Vec<Stamped>>, drop_rows: bool)
    requires runs { All IsRising (runs_of runs.items) }
    requires engine { table.schema.now.options.engine ≡ engines.Deduplicate }
{
    match Deduplicate::of_schema(case.alloc(), table.schema) {
        Ok(engine) => say_merged(case, table, engine, runs, drop_rows),
        Err(_) => {
            drop(runs);
            case.run_out();
        }
    }
}

/// Says the rows of the runs made into one by an engine.
fn say_merged(
    case: &mut Case,
    table: Table,
    engine: Deduplicate,
    runs: Vec<Vec<Stamped>>,
    drop_rows: bool,
)
    requires { All IsRising (runs_of runs.items) }
{
    match merge_runs(case.alloc(), &engine, runs, drop_rows) {
        Ok(run) => {
            say_rows(case, table, &run);
            drop(run);
        }
        Err(_) => case.run_out(),
    }
    drop(engine);
}

/// Runs with `;` between each two, the oldest first, or no run where there is no text. Where the keys of one don't rise
/// it is no case.
fn read_runs(
    case: &mut Case,
    table: Table,
    text: Option<&str>,
) -> Result<Vec<Vec<Stamped>>, AllocError>
    ensures { IfOk result (λ runs. All IsRising (runs_of runs.items)) }
{
    let mut runs = Vec::new(case.alloc());
    let Some(text) = text else {
        return Ok(runs);
    };
    for part in text.split(';') {
        let run = read_rows(case, table, part);
        if are_rising(&run) {
            push_run(&mut runs, run)?;
        } else {
            drop(run);
            case.reject();
        }
    }
    Ok(runs)
}

/// Adds a run whose keys rise.
#[tactic(auto, using(crate::proofs::RunLemmas::rising_push))]
fn push_run(runs: &mut Vec<Vec<Stamped>>, run: Vec<Stamped>) -> Result<(), AllocError>
    requires runs { All IsRising (runs_of runs.old.items) }
    requires rising { IsRising run.items }
    ensures { OnOk result (All IsRising (runs_of runs.new.items)) }
{
    runs.push(run)?;
    Ok(())
}
