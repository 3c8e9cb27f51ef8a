//! Keys that are looked up in a run of so many rows as are asked for.

ghost use Rattle.std.specs.Prelude.{◌≡◌, ◌≤◌, IfOk};
ghost use Rattle.pm_options.specs.declared.kinds.EngineKind.TheVariants as engines;
ghost use Rattle.pm_lookup.specs.Lookup.{IsFor};
ghost use Rattle.pm_run.specs.Writing.{AreRising};
ghost use Rattle.pm_schema.specs.declared.schema.TableSchema.{TableSchema};

use crate::long_run::rows_of;
use crate::order::are_rising;
use crate::rows::push_line;
use crate::table::Table;
use crate::written::names;
use pm_cases::{Case, say_between};
use pm_dedup::Deduplicate;
use pm_lookup::Lookup;
use pm_rows::print_row;
use pm_run::{RunBytes, RunFile};
use pm_run_writer::write_run;
use pm_schema::EngineKind;
use pm_values::{Blob, FileMeta, Key, Refusal, Stamped, Txt};
use std::alloc::{AllocError, Global};

/// What a run of so many rows, in files of at most so many, has of keys; or the refusal.
pub fn answer(case: &mut Case, table: Table, arguments: &str) {
    let (count, rest) = case.split(arguments);
    let (limit, rest) = case.split(rest);
    let count = case.number(count);
    let limit = case.size(limit);
    let rows = rows_of(case, table, count);
    if limit == 0 {
        case.reject();
    } else if are_rising(&rows) {
        look_up(case, table, &rows, limit, rest);
    } else {
        case.reject();
    }
    drop(rows);
}

/// Says what the files of a run of rows have of keys.
fn look_up(case: &mut Case, table: Table, rows: &[Stamped], limit: usize, rest: &str)
    requires rising { AreRising rows.now }
    requires limit { 1 ≤ limit }
{
    let mut names = names();
    match write_run(case.alloc(), table.schema, rows, limit, 5, &mut names) {
        Ok(files) => look_in(case, table, files, rest),
        Err(refusal) => case.refuse(refusal),
    }
}

/// The same of the files, where so many blocks may be kept, and the file of this name is damaged.
fn look_in(case: &mut Case, table: Table, files: Vec<RunFile>, rest: &str) {
    let (capacity, rest) = case.split(rest);
    let (spoiled, keys) = case.split(rest);
    let capacity = case.size(capacity);
    if capacity == 0 {
        drop(files);
        return case.reject();
    }
    match lookup_of(case.alloc(), files, capacity, spoiled) {
        Ok(lookup) => say_found(case, table, lookup, keys),
        Err(refusal) => case.refuse(refusal),
    }
}

// ---- the run

/// A lookup in the run of these files.
fn lookup_of(
    alloc: Global,
    files: Vec<RunFile>,
    capacity: usize,
    spoiled: &str,
) -> Result<Lookup, Refusal>
    requires { 1 ≤ capacity }
    ensures { IfOk result (λ lookup. (s : TableSchema) → IsFor s lookup) }
{
    let run = RunBytes {
        folder: Txt::from_str(alloc, "bucket-0")?,
        level: 5,
        files: bytes_of(alloc, files, spoiled)?,
    };
    let mut runs = Vec::new(alloc);
    runs.push(run)?;
    Lookup::new(alloc, runs, capacity)
}

/// The files with what is known of each; of the one of this name the last byte is another.
fn bytes_of(
    alloc: Global,
    files: Vec<RunFile>,
    spoiled: &str,
) -> Result<Vec<(FileMeta, Blob)>, AllocError> {
    let mut given = Vec::new(alloc);
    for file in files {
        let RunFile { meta, bytes } = file;
        if meta.name.as_str() == spoiled {
            given.push((meta, spoil(bytes)?))?;
        } else {
            given.push((meta, bytes))?;
        }
    }
    Ok(given)
}

/// The bytes with another last one.
fn spoil(bytes: Blob) -> Result<Blob, AllocError> {
    let mut bytes = bytes.into_vec();
    if let Some(last) = bytes.pop() {
        bytes.push(last ^ 1)?;
    }
    Ok(Blob::new(bytes))
}

// ---- the keys

/// Says what is found of keys in a table that keeps last rows.
fn say_found(case: &mut Case, table: Table, lookup: Lookup, keys: &str)
    requires { IsFor table.schema.now lookup }
{
    match table.schema.options.engine {
        EngineKind::Deduplicate => say_by_last(case, table, lookup, keys),
        _ => {
            drop(lookup);
            case.reject();
        }
    }
}

/// The same by its engine.
fn say_by_last(case: &mut Case, table: Table, lookup: Lookup, keys: &str)
    requires lookup { IsFor table.schema.now lookup }
    requires engine { table.schema.now.options.engine ≡ engines.Deduplicate }
{
    match Deduplicate::of_schema(case.alloc(), table.schema) {
        Ok(engine) => say_all(case, table, engine, lookup, keys),
        Err(_) => {
            drop(lookup);
            case.run_out();
        }
    }
}

/// Says of each key the line of its row, `none` or the refusal, with a TAB between each two.
fn say_all(case: &mut Case, table: Table, engine: Deduplicate, lookup: Lookup, keys: &str)
    requires { IsFor table.schema.now lookup }
{
    let mut lookup = lookup;
    let mut is_later = false;
    for key in keys.split('\t') {
        say_between(case, is_later, "\t");
        say_asked(case, table, &engine, &mut lookup, key);
        is_later = true;
    }
    drop(lookup);
    drop(engine);
}

/// Says what is found of the key that is this number.
fn say_asked(case: &mut Case, table: Table, engine: &Deduplicate, lookup: &mut Lookup, key: &str)
    requires { IsFor table.schema.now lookup.old }
    ensures { IsFor table.entry.schema.now lookup.new }
{
    let mut rows = Vec::new(case.alloc());
    if let Some(line) = case.made(format!(in case.alloc(); "[\"+I\",{key},null]")) {
        push_line(case, table, &mut rows, 0, line.as_str());
    }
    if let Some(row) = rows.as_slice().first() {
        say_old(case, table, engine, lookup, &row.key);
    }
    drop(rows);
}

/// Says what is found of a key.
fn say_old(case: &mut Case, table: Table, engine: &Deduplicate, lookup: &mut Lookup, key: &Key)
    requires { IsFor table.schema.now lookup.old }
    ensures { IsFor table.entry.schema.now lookup.new }
{
    match lookup.old_value(case.alloc(), engine, table.schema, key) {
        Ok(Some(old)) => {
            let columns = table.schema.columns.as_slice();
            case.say_line(print_row(case.alloc(), columns, old.kind, &old.row));
            drop(old);
        }
        Ok(None) => case.say("none"),
        Err(refusal) => case.refuse(refusal),
    }
}
