//! The file of packed rows, their numbers counted from another.

ghost use Rattle.std.specs.Prelude.{◌≡◌, ◌+◌, ◌<◌, ◌≤◌, ◌^◌, get_or, length, All, IfOk, None, OnOk, Some};
ghost use Rattle.pm_values.specs.declared.record.Stamped.{Stamped as StampedView};
ghost use Rattle.pm_engine.specs.Covers.{IsRising};
ghost use Rattle.pm_write.specs.Batch.{numbered};
ghost use Rattle.pm_write.specs.Files.{IsFileOfRun};
ghost use Rattle.pm_write.specs.Held.{CanCount, counted_from};

use pm_packed::PackedRows;
use pm_row_slots::RowSlot;
use pm_run::RunFile;
use pm_run_bytes::WrittenPlace;
use pm_run_writer::{RunWriter, files_law};
use pm_schema::TableSchema;
use pm_values::Names;
use std::alloc::{AllocError, Global};

/// How many bytes a row takes in its file at most, where its key is short, beside those of its packed values.
const MORE_BYTES: usize = 12;

/// The one data file of rows by rising key at level 0, each with its number counted from the first.
pub(crate) fn write_numbered(
    alloc: Global,
    schema: &TableSchema,
    rows: &PackedRows,
    first: u64,
    names: &mut Names,
) -> Result<RunFile, AllocError>
    requires rising { IsRising rows.now }
    requires within { All (CanCount first) rows.now }
    requires count { names.old.count < 2 ^ 62 }
    ensures file { IfOk result (IsFileOfRun schema.now names.old (numbered first rows.now)) }
    ensures names { names.new ≡ record names.old { count = names.new.count } }
    ensures counted { names.old.count ≤ names.new.count }
    ensures taken { OnOk result (names.new.count ≡ names.old.count + 1) }
{
    files_law();
    let mut writer = RunWriter::begin(alloc, schema, usize::MAX, 0, names)?;
    writer.reserve(most_bytes(rows));
    let empty = WrittenPlace {
        slot: RowSlot::new(alloc),
        content: None,
    };
    let mut place = Box::new(alloc, empty)?;
    for index in 0..rows.len() {
        lend_counted(alloc, rows, index, first, &mut place)?;
        let full = writer.put(alloc, &mut place)?;
        if full {
            return Err(AllocError);
        }
    }
    match writer.finish(alloc, names)? {
        Some(file) => Ok(file),
        None => Err(AllocError),
    }
}

/// How many bytes the file of the rows takes at most, where their keys are short: beside its values each row has its
/// number, its kind and its key once more.
fn most_bytes(rows: &PackedRows) -> usize {
    let more = rows.len().saturating_mul(MORE_BYTES);
    rows.bytes_len().saturating_add(more)
}

/// Lends the row at an index to a place, its number counted from the first.
fn lend_counted<'b>(
    alloc: Global,
    rows: &'b PackedRows,
    index: usize,
    first: u64,
    place: &mut Box<WrittenPlace<'b>>,
) -> Result<(), AllocError>
    requires within { index < length rows.now }
    requires counts { (none : StampedView) → CanCount first (get_or rows.now index none) }
    ensures row { OnOk result ((none : StampedView) →
        place.new.value.slot ≡ Some (counted_from first (get_or rows.now index none))) }
    ensures alone { OnOk result (place.new.value.content ≡ None) }
{
    let mut seen = place.slot.take_room(alloc);
    rows.lend(index, &mut seen)?;
    seen.seq = first + seen.seq;
    place.slot.put_lying(seen);
    place.content = None;
    Ok(())
}
