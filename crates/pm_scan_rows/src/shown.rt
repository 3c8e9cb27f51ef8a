//! The rows of groups, and the lines of those that show.

ghost use Rattle.std.specs.Prelude.{◌≡◌, [], ◌∷◌, ◌++◌, IfOk, OnOk, Some, map};
ghost use Rattle.pm_base.specs.Newline.{line};
ghost use Rattle.pm_row_slots.specs.Seen.{seen_row, seen_value};
ghost use Rattle.pm_row_slots.specs.Slot.{placed_row};
ghost use Rattle.pm_rows.specs.RowText.{row_text};
ghost use Rattle.pm_scan_rows.specs.Stored.{run_left};
ghost use Rattle.pm_values.specs.Order.{Values};
ghost use Rattle.pm_values.specs.declared.kind.Kind.TheVariants.{Insert};
ghost use Rattle.pm_values.specs.declared.record.Stamped.{Stamped as StampedView};
ghost use Rattle.pm_scan_rows.specs.Shown.{ShowsByKind, all_runs, groups_of, lines_of, only_shown};

use crate::rows::StoredRows;
use crate::stored_run::StoredRun;
use pm_engine::{MergeEngine, Stored};
use pm_row_slots::{PlacedRow, RowSlot, Seen, SeenRow, lend_values};
use pm_rows::push_row;
use pm_values::{Kind, Row, Stamped};
use std::alloc::{AllocError, Global};

/// The rows of the runs of all groups, each where it lies.
pub(crate) fn sources_of<'b>(
    alloc: Global,
    groups: &'b [Vec<StoredRun>],
) -> Result<Vec<StoredRows<'b>>, AllocError>
    ensures { IfOk result (λ sources. map run_left sources.items ≡ all_runs (groups_of groups.now)) }
{
    let mut sources = Vec::new(alloc);
    for runs in groups {
        push_sources(&mut sources, runs.as_slice())?;
    }
    Ok(sources)
}

/// The rows of runs, each where it lies.
pub fn sources<'b>(alloc: Global, runs: &'b [StoredRun]) -> Result<Vec<StoredRows<'b>>, AllocError>
    ensures { IfOk result (λ sources. map run_left sources.items ≡ runs.now) }
{
    let mut sources = Vec::new(alloc);
    push_sources(&mut sources, runs)?;
    Ok(sources)
}

/// Adds the rows of runs.
fn push_sources<'b>(
    sources: &mut Vec<StoredRows<'b>>,
    runs: &'b [StoredRun],
) -> Result<(), AllocError>
    ensures { OnOk result (map run_left sources.new.items ≡ map run_left sources.old.items ++ runs.now) }
{
    for run in runs {
        sources.push(run.rows())?;
    }
    Ok(())
}

/// Adds the line of the row in a place, if there is one and it shows.
pub(crate) fn push_shown<E: MergeEngine>(
    alloc: Global,
    engine: &E,
    text: &mut Vec<u8>,
    slot: &RowSlot,
) -> Result<(), AllocError>
    requires { ShowsByKind (E.meaning engine.now) }
    ensures { OnOk result ((x : StampedView) → slot.now ≡ Some x
        → text.new.items ≡ text.old.items ++ lines_of (only_shown (E.meaning engine.now) (x ∷ []))) }
{
    match slot.row() {
        Some(row) => Ok(push_placed(alloc, engine, text, row)?),
        None => Ok(()),
    }
}

/// Adds the line of a row where it stands, if it shows.
fn push_placed<E: MergeEngine>(
    alloc: Global,
    engine: &E,
    text: &mut Vec<u8>,
    row: PlacedRow,
) -> Result<(), AllocError>
    requires { ShowsByKind (E.meaning engine.now) }
    ensures { OnOk result
        (text.new.items ≡ text.old.items ++ lines_of (only_shown (E.meaning engine.now) (placed_row row.entry ∷ []))) }
{
    match row {
        PlacedRow::Lying(seen) => push_lying(alloc, engine, text, seen),
        PlacedRow::Own(own) => push_own(alloc, engine, text, own),
    }
}

/// Adds the line of a row that lies in bytes, if it shows.
fn push_lying<E: MergeEngine>(
    alloc: Global,
    engine: &E,
    text: &mut Vec<u8>,
    seen: &SeenRow,
) -> Result<(), AllocError>
    requires { ShowsByKind (E.meaning engine.now) }
    ensures { OnOk result
        (text.new.items ≡ text.old.items ++ lines_of (only_shown (E.meaning engine.now) (seen_row seen.now ∷ []))) }
{
    if shows(alloc, engine, seen.kind) {
        push_line(alloc, text, &seen.row)
    } else {
        Ok(())
    }
}

/// Adds the line of a row of its own, if it shows.
fn push_own<E: MergeEngine>(
    alloc: Global,
    engine: &E,
    text: &mut Vec<u8>,
    own: &Stamped,
) -> Result<(), AllocError>
    requires { ShowsByKind (E.meaning engine.now) }
    ensures { OnOk result
        (text.new.items ≡ text.old.items ++ lines_of (only_shown (E.meaning engine.now) (own.now ∷ []))) }
{
    if shows(alloc, engine, own.kind) {
        let mut values = Vec::new(alloc);
        lend_values(own.row.values(), &mut values)?;
        push_line(alloc, text, &values)
    } else {
        Ok(())
    }
}

/// Adds the line that inserts the row to the text.
pub(crate) fn push_line(alloc: Global, text: &mut Vec<u8>, row: &[Seen]) -> Result<(), AllocError>
    ensures { OnOk result (text.new.items ≡ text.old.items ++ line (row_text Insert (map seen_value row.now))) }
{
    push_row(alloc, text, Kind::Insert, row)?;
    text.push(b'\n')?;
    Ok(())
}

/// Whether a stored row of the kind shows.
fn shows<E: MergeEngine>(alloc: Global, engine: &E, kind: Kind) -> bool
    requires { ShowsByKind (E.meaning engine.now) }
    ensures { (row : Values) → result ≡ (E.meaning engine.now).shows ((kind, row) ∷ []) }
{
    engine.shows(&Stored {
        kind,
        row: Row::new(Vec::new(alloc)),
    })
}
