//! Files of runs and changelogs, written and read again.

ghost use Rattle.std.specs.Prelude.{◌≡◌, ◌≤◌};
ghost use Rattle.pm_run.specs.Writing.{AreRising};

use crate::order::{are_changes, are_rising};
use crate::rows::{push_line, read_rows, say_key};
use crate::run_file::say_file;
use crate::table::Table;
use pm_cases::{Case, say_between};
use pm_run::RunFile;
use pm_run_writer::{write_changes, write_run};
use pm_values::{FileMeta, Names, Stamped};

/// The session whose files are written.
const SESSION: [u8; 16] = [7; 16];

/// The names of the files of a case: those of actor 2, after snapshot 5.
pub fn names() -> Names
    ensures { result.count ≡ 0 }
{
    Names::new(SESSION, 2, 5)
}

/// The files of a run of a table at a level, each of at most so many rows, and what is read of them; or the refusal.
/// Rows whose keys don't rise, and a file of no row, are no case.
pub fn answer(case: &mut Case, table: Table, arguments: &str) {
    let (level, text) = case.split(arguments);
    let (limit, text) = case.split(text);
    let level = case.small(level);
    let limit = case.size(limit);
    let rows = read_rows(case, table, text);
    if limit == 0 {
        case.reject();
    } else if are_rising(&rows) {
        say_run(case, table, &rows, limit, level);
    } else {
        case.reject();
    }
    drop(rows);
}

/// Says the files of a run of rows.
fn say_run(case: &mut Case, table: Table, rows: &[Stamped], limit: usize, level: u32)
    requires rising { AreRising rows.now }
    requires limit { 1 ≤ limit }
{
    let mut names = names();
    match write_run(case.alloc(), table.schema, rows, limit, level, &mut names) {
        Ok(files) => say_files(case, table, files),
        Err(refusal) => case.refuse(refusal),
    }
}

/// Says the files of a run.
fn say_files(case: &mut Case, table: Table, files: Vec<RunFile>) {
    if files.is_empty() {
        case.say("nothing");
    }
    let mut is_later = false;
    for file in files {
        say_between(case, is_later, "\t");
        say_written(case, table, file, false);
        is_later = true;
    }
}

/// The file of a changelog of a table, and what is read of it; or the refusal. The numbers of the rows count from 0.
/// Rows that aren't in a changelog's order are no case.
pub fn changes_answer(case: &mut Case, table: Table, text: &str) {
    let mut rows = Vec::new(case.alloc());
    for (index, line) in text.split('\t').enumerate() {
        push_line(case, table, &mut rows, index as u64, line);
    }
    say_changes(case, table, &rows);
    drop(rows);
}

/// Says the file of a changelog of rows, where these are in its order.
fn say_changes(case: &mut Case, table: Table, rows: &[Stamped]) {
    if !are_changes(rows) {
        return case.reject();
    }
    let mut names = names();
    match write_changes(case.alloc(), table.schema, rows, &mut names) {
        Ok(file) => say_written(case, table, file, true),
        Err(refusal) => case.refuse(refusal),
    }
}

/// Says what is known of a file, its digits, and what is read of it.
fn say_written(case: &mut Case, table: Table, file: RunFile, changes: bool) {
    let RunFile { meta, bytes } = file;
    say_meta(case, table, &meta);
    case.say("\t");
    case.say_digits(bytes.as_bytes());
    case.say("\t");
    say_file(
        case,
        table,
        meta.name.as_str(),
        meta.schema_id,
        bytes,
        changes,
    );
    drop(meta);
}

/// Says what is known of a file: its name, its size, its rows, its least and its greatest key, its least and its
/// greatest sequence number, its schema's id, its level, and when it was made.
pub fn say_meta(case: &mut Case, table: Table, meta: &FileMeta) {
    case.say(meta.name.as_str());
    case.say_made(format!(in case.alloc(); " {} {} ", meta.size, meta.rows));
    say_key(case, table, &meta.min_key);
    case.say(" ");
    say_key(case, table, &meta.max_key);
    case.say_made(format!(in case.alloc(); " {} {}", meta.min_seq, meta.max_seq));
    case.say_made(format!(in case.alloc(); " {} {} ", meta.schema_id, meta.level));
    case.say_optional(meta.created);
}
