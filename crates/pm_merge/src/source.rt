//! Rows that are given one after another.

ghost use Rattle.std.specs.Prelude.{◌≡◌, None, OnOk};
ghost use Rattle.pm_merge.specs.Source.{Fills, HandsOut, Rest};
ghost use Rattle.pm_schema.specs.declared.schema.TableSchema.{TableSchema};

use crate::place::RowPlace;
use pm_row_slots::RowSlot;
use pm_values::{Refusal, Stamped};
use std::alloc::Global;
use std::vec::IntoIter;

/// What gives rows one after another, and after them a refusal, if one comes, by putting the rows into places. It has
/// the places' type as a parameter, and no lifetime, as a bound with a lifetime is refused on functions that call
/// themselves.
pub trait RowSource<P: RowPlace>: Drop {
    /// What it has still to give.
    ghost rest: { Self → Rest };

    /// It puts rows into places as they have to be of a table of the schema.
    ghost fits: { Self → TableSchema → Type 0 };

    /// Puts the next row into an empty place, or none at the end. Where it refuses, no row is left, none stands in the
    /// place, and it refuses each time. Where memory runs out, nothing is said of what is left.
    fn fill(&mut self, alloc: Global, slot: &mut P) -> Result<(), Refusal>
        requires { P.held slot.old ≡ None }
        ensures fills { Fills (rest self.old) result (rest self.new) (P.held slot.new) }
        ensures fits { OnOk result ((table : TableSchema) → fits self.old table → P.fits slot.old table
            → fits self.new table × P.fits slot.new table) };

    /// The next row, in memory of its own, or none at the end.
    fn next(&mut self, alloc: Global) -> Result<Option<Stamped>, Refusal>
        ensures { HandsOut (rest self.old) result (rest self.new) }
    {
        let mut slot = P::empty(alloc);
        self.fill(alloc, &mut slot)?;
        Ok(slot.take(alloc)?)
    }
}

/// Rows that are in memory.
pub struct MemRows {
    pub rows: IntoIter<Stamped, Global>,
}

impl Drop for MemRows {
    fn drop(self) {
        let MemRows { rows } = self;
    }
}

impl<'b> RowSource<RowSlot<'b>> for MemRows {
    ghost use Rattle.pm_merge.specs.Source.{rest_in_memory};

    ghost rest = { rest_in_memory };

    ghost fits = { λ r table. Unit {0} };

    fn fill(&mut self, _alloc: Global, slot: &mut RowSlot<'b>) -> Result<(), Refusal> {
        slot.set(self.rows.next());
        Ok(())
    }
}
