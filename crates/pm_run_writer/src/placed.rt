//! What is asked of a row wherever it stands: in the bytes of a file, lent, or in memory of its own.

ghost use Rattle.std.specs.Prelude.{◌≡◌, IfOk, length};
ghost use Rattle.pm_row_slots.specs.Slot.{placed_row};

use pm_row_slots::{PlacedRow, values_of};
use pm_values::{Key, Kind};
use std::alloc::{AllocError, Global};

/// The row's sequence number.
pub(crate) fn number_of(row: PlacedRow) -> u64
    ensures { result ≡ (placed_row row.entry).seq }
{
    match row {
        PlacedRow::Lying(seen) => seen.seq,
        PlacedRow::Own(own) => own.seq,
    }
}

/// The row's kind.
pub(crate) fn kind_of(row: PlacedRow) -> Kind
    ensures { result ≡ (placed_row row.entry).kind }
{
    match row {
        PlacedRow::Lying(seen) => seen.kind,
        PlacedRow::Own(own) => own.kind,
    }
}

/// How many values the row has.
pub(crate) fn value_count(row: PlacedRow) -> usize
    ensures { result ≡ length (placed_row row.entry).row }
{
    match row {
        PlacedRow::Lying(seen) => seen.row.as_slice().len(),
        PlacedRow::Own(own) => own.row.values().len(),
    }
}

/// The row's key, in memory of its own.
pub(crate) fn key_of(alloc: Global, row: PlacedRow) -> Result<Key, AllocError>
    ensures { IfOk result (λ key. key ≡ (placed_row row.entry).key) }
{
    match row {
        PlacedRow::Lying(seen) => Ok(Key::new(values_of(alloc, &seen.key)?)),
        PlacedRow::Own(own) => own.key.copy(alloc),
    }
}
