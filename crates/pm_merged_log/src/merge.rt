//! The text of a frame, of the rows of all changelog files of its snapshot.

ghost use Rattle.std.specs.Prelude.{◌≡◌, [], ◌++◌, map, IfOk, None, OnOk, true};
ghost use Rattle.pm_engine.specs.Covers.{row_of};
ghost use Rattle.pm_model_following.specs.Following.{by_key, frame_head};
ghost use Rattle.pm_run.specs.Order.{are_in_order};
ghost use Rattle.pm_run_bytes.specs.Lying.{GivesFirst};
ghost use Rattle.pm_scan_rows.specs.Stored.{run_left};
ghost use Rattle.pm_schema.specs.declared.schema.TableSchema.{TableSchema};
ghost use Rattle.pm_merged_log.specs.Merged.{HaveOwnKeys, change_lines, merged_frame};

use crate::lines::{push_packed, push_rows};
use pm_merge::RowSource;
use pm_model_changelog::by_key_law;
use pm_packed::PackedRows;
use pm_scan_rows::{StoredRows, StoredRun};
use pm_values::Stamped;
use std::alloc::{AllocError, Global};

/// The frame of a snapshot without changelog files: its first line alone.
pub fn empty_frame(alloc: Global, id: u64) -> Result<Vec<u8>, AllocError>
    ensures { IfOk result (λ text. (s : TableSchema) → text.items ≡ merged_frame s id []) }
{
    by_key_law();
    head_of(alloc, id)
}

/// The frame of a snapshot, of the rows of all its changelog files but one, and those of that last one. Of one file the
/// rows are printed where they lie; of more they are packed and sorted. Out of memory is also answered where rows of
/// several files have more values, or longer ones, than packed rows can have.
pub fn frame_text(
    alloc: Global,
    id: u64,
    rows: PackedRows,
    last: &StoredRun,
) -> Result<Vec<u8>, AllocError>
    requires { are_in_order true None last.now ≡ true }
    ensures { IfOk result (λ text. (s : TableSchema) → HaveOwnKeys s (rows ++ last.now)
        → text.items ≡ merged_frame s id (rows ++ last.now)) }
{
    by_key_law();
    let mut text = head_of(alloc, id)?;
    if rows.len() == 0 {
        push_rows(alloc, last, &mut text)?;
        return Ok(text);
    }
    push_merged(alloc, rows, last, &mut text)?;
    Ok(text)
}

/// Adds the lines of all these rows by rising key, those of one key in their order.
fn push_merged(
    alloc: Global,
    rows: PackedRows,
    last: &StoredRun,
    text: &mut Vec<u8>,
) -> Result<(), AllocError>
    ensures { OnOk result ((s : TableSchema) → HaveOwnKeys s (rows ++ last.now) → text.new.items
        ≡ text.old.items ++ change_lines (by_key s (map row_of (rows ++ last.now)))) }
{
    by_key_law();
    let mut rows = rows;
    pack_rows(alloc, last, &mut rows)?;
    rows.sort()?;
    push_packed(alloc, &rows, text)
}

/// Adds the rows of a file to those that are packed.
pub fn pack_rows(alloc: Global, run: &StoredRun, rows: &mut PackedRows) -> Result<(), AllocError>
    ensures { OnOk result (rows.new ≡ rows.old ++ run.now) }
{
    let mut left = run.rows();
    while let Some(row) = next_row(alloc, &mut left)? {
        rows.push(&row)?;
    }
    Ok(())
}

/// The next row, in memory of its own, or none at the end.
fn next_row(alloc: Global, left: &mut StoredRows) -> Result<Option<Stamped>, AllocError>
    ensures { IfOk result (λ next. GivesFirst (run_left left.old) next (run_left left.new)) }
{
    match left.next(alloc) {
        Ok(next) => Ok(next),
        Err(_) => Err(AllocError),
    }
}

/// The line that the frame of the snapshot with the id begins with.
fn head_of(alloc: Global, id: u64) -> Result<Vec<u8>, AllocError>
    ensures { IfOk result (λ text. text.items ≡ frame_head id) }
{
    let head = format!(in alloc; "{{\"snapshot\":{id}}}")?;
    let mut text = head.into_bytes();
    text.push(b'\n')?;
    Ok(text)
}
