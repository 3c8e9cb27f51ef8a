//! The lines of rows, each of its kind.

ghost use Rattle.std.specs.Prelude.{◌≡◌, [], ◌∷◌, ◌++◌, IfOk, OnOk, is_some, map, option_to_list};
ghost use Rattle.pm_base.specs.Newline.{line};
ghost use Rattle.pm_row_slots.specs.Seen.{seen_row, seen_value};
ghost use Rattle.pm_row_slots.specs.Slot.{placed_row};
ghost use Rattle.pm_rows.specs.RowText.{row_text};
ghost use Rattle.pm_scan_rows.specs.Stored.{run_left};
ghost use Rattle.pm_merged_log.specs.Merged.{GivesLine, lines_of};

use pm_merge::RowSource;
use pm_packed::PackedRows;
use pm_row_slots::{PlacedRow, RowSlot, Seen, SeenRow, lend_values};
use pm_rows::push_row;
use pm_scan_rows::{StoredRows, StoredRun};
use pm_values::{Kind, Stamped};
use std::alloc::{AllocError, Global};

/// Adds a line for each row of a file, where it lies.
pub(crate) fn push_rows(
    alloc: Global,
    run: &StoredRun,
    text: &mut Vec<u8>,
) -> Result<(), AllocError>
    ensures { OnOk result (text.new.items ≡ text.old.items ++ lines_of run.now) }
{
    let mut rows = run.rows();
    let mut slot = RowSlot::new(alloc);
    while push_next(alloc, &mut rows, &mut slot, text)? {}
    Ok(())
}

/// Adds the line of the next row: whether there is one. The place is for the rows, one after another.
fn push_next<'b>(
    alloc: Global,
    rows: &mut StoredRows<'b>,
    slot: &mut RowSlot<'b>,
    text: &mut Vec<u8>,
) -> Result<bool, AllocError>
    ensures { IfOk result (λ is. GivesLine is (run_left rows.old) (run_left rows.new) text.old.items text.new.items) }
{
    slot.clear();
    let Ok(_) = rows.fill(alloc, slot) else {
        return Err(AllocError);
    };
    push_held(alloc, slot, text)
}

/// Adds the line of the row in a place: whether there is one.
fn push_held(alloc: Global, slot: &RowSlot, text: &mut Vec<u8>) -> Result<bool, AllocError>
    ensures { IfOk result (λ is. (is ≡ is_some slot.now)
        × (text.new.items ≡ text.old.items ++ lines_of (option_to_list slot.now))) }
{
    match slot.row() {
        Some(row) => {
            push_placed(alloc, row, text)?;
            Ok(true)
        }
        None => Ok(false),
    }
}

/// Adds the line of a row where it stands.
fn push_placed(alloc: Global, row: PlacedRow, text: &mut Vec<u8>) -> Result<(), AllocError>
    ensures { OnOk result (text.new.items ≡ text.old.items ++ lines_of (placed_row row.entry ∷ [])) }
{
    match row {
        PlacedRow::Lying(seen) => push_seen(alloc, seen, text),
        PlacedRow::Own(own) => push_own(alloc, own, text),
    }
}

/// Adds the line of a row that lies in bytes or is lent.
pub(crate) fn push_seen(alloc: Global, seen: &SeenRow, text: &mut Vec<u8>) -> Result<(), AllocError>
    ensures { OnOk result (text.new.items ≡ text.old.items ++ lines_of (seen_row seen.now ∷ [])) }
{
    push_line(alloc, seen.kind, &seen.row, text)
}

/// Adds the line of a row of its own.
fn push_own(alloc: Global, own: &Stamped, text: &mut Vec<u8>) -> Result<(), AllocError>
    ensures { OnOk result (text.new.items ≡ text.old.items ++ lines_of (own.now ∷ [])) }
{
    let mut values = Vec::new(alloc);
    lend_values(own.row.values(), &mut values)?;
    push_line(alloc, own.kind, &values, text)
}

/// Adds the line of a row of the kind.
fn push_line(alloc: Global, kind: Kind, row: &[Seen], text: &mut Vec<u8>) -> Result<(), AllocError>
    ensures { OnOk result (text.new.items ≡ text.old.items ++ line (row_text kind (map seen_value row.now))) }
{
    push_row(alloc, text, kind, row)?;
    text.push(b'\n')?;
    Ok(())
}

/// Adds a line for each packed row, in their order.
pub(crate) fn push_packed(
    alloc: Global,
    rows: &PackedRows,
    text: &mut Vec<u8>,
) -> Result<(), AllocError>
    ensures { OnOk result (text.new.items ≡ text.old.items ++ lines_of rows.now) }
{
    let mut seen = SeenRow::new(alloc);
    for index in 0..rows.len() {
        rows.lend(index, &mut seen)?;
        push_seen(alloc, &seen, text)?;
    }
    Ok(())
}
