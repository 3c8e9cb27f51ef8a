//! The changelog file of a group.

ghost use Rattle.std.specs.Prelude.{◌≡◌, ◌+◌, ◌<◌, ◌≤◌, ◌^◌, get_or, length, option_to_list, IfOk, None, OnOk, Some};
ghost use Rattle.pm_values.specs.declared.record.Stamped.{Stamped as StampedView};
ghost use Rattle.pm_changelog.specs.GroupLog.{with_number, without_numbers, AreOfLog};
ghost use Rattle.pm_changelog.specs.Written.{IsWrittenLog};

use crate::group_log::GroupLog;
use pm_packed::PackedRows;
use pm_row_slots::RowSlot;
use pm_run::RunFile;
use pm_run_bytes::WrittenPlace;
use pm_run_writer::{RunWriter, changes_law};
use pm_schema::TableSchema;
use pm_values::Names;
use std::alloc::{AllocError, Global};

/// The changelog file of a group of a table of the schema, which has the next name; none, and no name is taken, where
/// the log tells nothing. Out of memory is also answered where a row has another number of values than the schema has
/// columns, or a value isn't of its column's type.
pub fn write_log(
    alloc: Global,
    schema: &TableSchema,
    log: &GroupLog,
    names: &mut Names,
) -> Result<Option<RunFile>, AllocError>
    requires count { names.old.count < 2 ^ 62 }
    ensures file { IfOk result (IsWrittenLog schema.now names.old log.now) }
    ensures names { names.new ≡ record names.old { count = names.new.count } }
    ensures taken { IfOk result (λ file. names.new.count ≡ names.old.count + length (option_to_list file)) }
    ensures counted { (names.old.count ≤ names.new.count) × (names.new.count ≤ names.old.count + 1) }
{
    if log.is_empty() {
        return Ok(None);
    }
    write_rows(alloc, schema, &log.rows, names)
}

/// The changelog file of rows by key, each with the number of its index; none of no rows.
fn write_rows(
    alloc: Global,
    schema: &TableSchema,
    rows: &PackedRows,
    names: &mut Names,
) -> Result<Option<RunFile>, AllocError>
    requires order { AreOfLog rows.now }
    requires count { names.old.count < 2 ^ 62 }
    ensures file { IfOk result (IsWrittenLog schema.now names.old (without_numbers rows.now)) }
    ensures names { names.new ≡ record names.old { count = names.new.count } }
    ensures taken { IfOk result (λ file. names.new.count ≡ names.old.count + length (option_to_list file)) }
    ensures counted { (names.old.count ≤ names.new.count) × (names.new.count ≤ names.old.count + 1) }
{
    changes_law();
    let mut writer = RunWriter::begin(alloc, schema, usize::MAX, 0, names)?;
    let empty = WrittenPlace {
        slot: RowSlot::new(alloc),
        content: None,
    };
    let mut place = Box::new(alloc, empty)?;
    for index in 0..rows.len() {
        lend_numbered(alloc, rows, index, &mut place)?;
        if writer.put(alloc, &mut place)? {
            return Err(AllocError);
        }
    }
    let file = writer.finish_changes(alloc, names)?;
    Ok(file)
}

/// Lends the row at an index to a place, with that number.
fn lend_numbered<'b>(
    alloc: Global,
    rows: &'b PackedRows,
    index: usize,
    place: &mut Box<WrittenPlace<'b>>,
) -> Result<(), AllocError>
    requires within { index < length rows.now }
    ensures row { OnOk result ((none : StampedView) →
        place.new.value.slot ≡ Some (with_number index (get_or rows.now index none))) }
    ensures alone { OnOk result (place.new.value.content ≡ None) }
{
    let mut seen = place.slot.take_room(alloc);
    rows.lend(index, &mut seen)?;
    seen.seq = index as u64;
    place.slot.put_lying(seen);
    place.content = None;
    Ok(())
}
