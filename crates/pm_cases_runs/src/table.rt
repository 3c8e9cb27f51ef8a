//! A table, and what is tried with its rows.

use crate::{long_merge, long_run, look_up, merge, run_file, timed_merge, timed_run, written};
use pm_cases::Case;
use pm_model_history::primary_of;
use pm_schema::TableSchema;
use pm_values::Column;
use std::alloc::{AllocError, Global};

/// A table's schema, and what its key is made of.
#[derive(Clone, Copy)]
pub struct Table<'a> {
    pub schema: &'a TableSchema,
    /// The indexes of the primary key's columns, in its order.
    pub primary: &'a [usize],
    /// These columns.
    pub keys: &'a [Column],
}

/// What a codec of rows answers of a table.
pub fn run_answer(
    rt: &HostRuntime,
    case: &mut Case,
    codec: &str,
    schema: &TableSchema,
    rest: &str,
) {
    let Some(primary) = case.made(primary_of(case.alloc(), schema)) else {
        return;
    };
    let Some(keys) = case.made(keys_of(case.alloc(), schema, &primary)) else {
        return;
    };
    let table = Table {
        schema,
        primary: &primary,
        keys: &keys,
    };
    match codec {
        "run-file" => run_file::answer(case, table, rest),
        "write-run" => written::answer(case, table, rest),
        "write-changes" => written::changes_answer(case, table, rest),
        "merge" => merge::answer(case, table, rest),
        "long-run" => long_run::answer(case, table, rest),
        "long-merge" => long_merge::answer(case, table, rest),
        "look-up" => look_up::answer(case, table, rest),
        "timed-merge" => timed_merge::answer(rt, case, table, rest),
        _ => timed_run::answer(rt, case, table, rest),
    }
}

/// Copies of the columns at the indexes.
fn keys_of(
    alloc: Global,
    schema: &TableSchema,
    indexes: &[usize],
) -> Result<Vec<Column>, AllocError> {
    let mut keys = Vec::new(alloc);
    for index in indexes {
        if let Some(column) = schema.columns.as_slice().get(*index) {
            keys.push(column.copy(alloc)?)?;
        }
    }
    Ok(keys)
}
