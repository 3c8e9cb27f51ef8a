//! Places for rows, between which rows are moved.

ghost use Rattle.std.specs.Prelude.{◌≡◌, None, Some, Option, IfOk, OnOk, is_none, option_map};
ghost use Rattle.pm_engine.specs.Needed.{raised};
ghost use Rattle.pm_row_slots.specs.Slot.{OrdersFirst, number_of};

use pm_row_slots::RowSlot;
use pm_values::Stamped;
use std::alloc::{AllocError, Global};
use std::cmp::Ordering;

/// A place for one row at a time, or none.
pub trait RowPlace: Drop {
    ghost use Rattle.pm_schema.specs.declared.schema.TableSchema.{TableSchema};
    ghost use Rattle.pm_values.specs.declared.record.Stamped.{Stamped as StampedView};

    /// The row that stands in it.
    ghost held: { Self → Option StampedView };

    /// What else there is of its row is as it has to be of one of a table of the schema.
    ghost fits: { Self → TableSchema → Type 0 };

    /// A place without a row.
    fn empty(alloc: Global) -> Self
        ensures none { held result ≡ None }
        ensures fits { (table : TableSchema) → fits result table };

    /// Whether no row stands in it.
    fn is_empty(&self) -> bool
        ensures { result ≡ is_none (held self.now) };

    /// How the rows of two places compare by their keys, as if a place without one had one above all; none where both
    /// have none.
    fn order(&self, other: &Self) -> Option<Ordering>
        ensures { OrdersFirst (held self.now) (held other.now) result };

    /// The number of its row, or 0.
    fn number(&self) -> u64
        ensures { result ≡ number_of (held self.now) };

    /// Gives its row the number, where this is greater than the row's own.
    fn raise(&mut self, number: u64)
        ensures raised { held self.new ≡ option_map (raised number) (held self.old) }
        ensures fits { (table : TableSchema) → fits self.old table → fits self.new table };

    /// No row stands in it any more.
    fn clear(&mut self)
        ensures none { held self.new ≡ None }
        ensures fits { (table : TableSchema) → fits self.new table };

    /// The row, which leaves the place, in memory of its own.
    fn take(&mut self, alloc: Global) -> Result<Option<Stamped>, AllocError>
        ensures row { IfOk result (λ taken. taken ≡ held self.old) }
        ensures none { OnOk result (held self.new ≡ None) }
        ensures fits { OnOk result ((table : TableSchema) → fits self.new table) };

    /// Puts a row into an empty place.
    fn put(&mut self, stamped: Stamped)
        requires { held self.old ≡ None }
        ensures row { held self.new ≡ Some stamped }
        ensures fits { (table : TableSchema) → fits self.new table };
}

impl<'b> RowPlace for RowSlot<'b> {
    ghost held = { λ s. s };

    ghost fits = { λ s table. Unit {0} };

    #[inline]
    fn empty(alloc: Global) -> RowSlot<'b> {
        RowSlot::new(alloc)
    }

    #[inline]
    fn is_empty(&self) -> bool {
        self.is_none()
    }

    #[inline(always)]
    fn order(&self, other: &RowSlot<'b>) -> Option<Ordering> {
        RowSlot::order(self, other)
    }

    #[inline]
    fn number(&self) -> u64 {
        RowSlot::number(self)
    }

    #[inline]
    fn raise(&mut self, number: u64) {
        RowSlot::raise(self, number);
    }

    #[inline]
    fn clear(&mut self) {
        RowSlot::clear(self);
    }

    #[inline]
    fn take(&mut self, alloc: Global) -> Result<Option<Stamped>, AllocError> {
        RowSlot::take(self, alloc)
    }

    #[inline]
    fn put(&mut self, stamped: Stamped) {
        self.set(Some(stamped));
    }
}
