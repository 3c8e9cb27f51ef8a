//! What is printed of the groups of a table.

ghost use Rattle.std.specs.Prelude.{◌≡◌, ◌≢◌, ◌<◌, All, IfErr, IfOk, List, Some, true};
ghost use Rattle.pm_engine.specs.Covers.{IsRising};
ghost use Rattle.pm_merge.specs.Merging.{HasLeft, first_refusal, rows_left};
ghost use Rattle.pm_merge.specs.Source.{Rest};
ghost use Rattle.pm_values.specs.declared.refusal.Refusal.TheVariants.{Memory};
ghost use Rattle.pm_scan_rows.specs.Stored.{rest_of};
ghost use Rattle.pm_scan_rows.specs.Next.{held, PrintsNext};
ghost use Rattle.pm_scan_rows.specs.Shown.{PrintsGroups, ShowsByKind, groups_of};

use crate::rows::StoredRows;
use crate::shown::{push_shown, sources_of};
use crate::stored_run::StoredRun;
use pm_engine::MergeEngine;
use pm_merge::{Merging, given_law};
use pm_row_slots::RowSlot;
use pm_values::Refusal;
use std::alloc::{AllocError, Global};

/// The lines of the rows that groups show, by rising key, of the runs of each group, the oldest first. The runs of all
/// groups are merged at once, since a key's rows are of one group, and a row is printed where it lies, but where it is
/// combined.
pub fn print_groups<E: MergeEngine>(
    alloc: Global,
    engine: &E,
    groups: Vec<Vec<StoredRun>>,
) -> Result<Vec<u8>, AllocError>
    requires rising { All (All IsRising) (groups_of groups.items) }
    requires by_kind { ShowsByKind (E.meaning engine.now) }
    ensures { IfOk result (λ text. PrintsGroups (E.meaning engine.now) (groups_of groups.items) text.items) }
{
    let Ok(text) = print_all(alloc, engine, groups.as_slice()) else {
        return Err(AllocError);
    };
    Ok(text)
}

/// The same of groups that are lent. The only refusal is that memory ran out, as what was read has none.
fn print_all<E: MergeEngine>(
    alloc: Global,
    engine: &E,
    groups: &[Vec<StoredRun>],
) -> Result<Vec<u8>, Refusal>
    requires rising { All (All IsRising) (groups_of groups.now) }
    requires by_kind { ShowsByKind (E.meaning engine.now) }
    ensures prints { IfOk result (λ text. PrintsGroups (E.meaning engine.now) (groups_of groups.now) text.items) }
    ensures memory { IfErr result (λ e. e ≡ Memory) }
{
    given_law();
    let mut merging = Merging::of(alloc, sources_of(alloc, groups)?)?;
    let mut slot = Box::new(alloc, RowSlot::new(alloc))?;
    let mut text = Vec::new(alloc);
    while push_next(alloc, engine, &mut merging, &mut slot, &mut text)? {}
    Ok(text)
}

/// Adds the line of the next row, if it shows: whether there is one. The place is for the rows, one after another.
/// Refusals are those of `Merging::fill`.
fn push_next<'b, E: MergeEngine>(
    alloc: Global,
    engine: &E,
    merging: &mut Merging<RowSlot<'b>, StoredRows<'b>>,
    slot: &mut Box<RowSlot<'b>>,
    text: &mut Vec<u8>,
) -> Result<bool, Refusal>
    requires { ShowsByKind (E.meaning engine.now) }
    ensures next { IfOk result
        (PrintsNext (E.meaning engine.now) merging.old merging.new text.old.items text.new.items) }
    ensures fewer { IfOk result (λ is. is ≡ true → rows_left held rest_of merging.new
        < rows_left held rest_of merging.old) }
    ensures refuses { IfErr result (λ e. e ≢ Memory → (rests : List Rest)
        → HasLeft (E.meaning engine.now) held rest_of merging.old rests → first_refusal rests ≡ Some e) }
{
    slot.clear();
    merging.fill(alloc, engine, slot)?;
    if slot.is_none() {
        return Ok(false);
    }
    push_shown(alloc, engine, text, slot)?;
    Ok(true)
}
