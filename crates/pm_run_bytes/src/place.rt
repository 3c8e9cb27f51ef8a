//! Places for rows of which the bytes may be known.

ghost use Rattle.std.specs.Prelude.{◌≡◌, None, Some, Option, IfOk, OnOk, is_none, option_map};
ghost use Rattle.pm_engine.specs.Needed.{raised};
ghost use Rattle.pm_row_slots.specs.Slot.{OrdersFirst, number_of};

use pm_merge::RowPlace;
use pm_row_slots::RowSlot;
use pm_values::Stamped;
use std::alloc::{AllocError, Global};
use std::cmp::Ordering;

/// A place for a row, and its bytes, where these are known to be those that are written of it.
pub struct WrittenPlace<'b> {
    pub slot: RowSlot<'b>,
    pub content: Option<&'b [u8]>,
}

impl Drop for WrittenPlace<'_> {
    fn drop(self) {
        let WrittenPlace { slot, content } = self;
    }
}

impl<'b> RowPlace for WrittenPlace<'b> {
    ghost use Rattle.pm_run.specs.Form.{form_of};
    ghost use Rattle.pm_run_bytes.specs.Lying.{HasContentOf};

    ghost held = { λ p. p.slot };

    ghost fits = { λ p table. HasContentOf (form_of table) p.slot p.content };

    #[tactic(auto, using(crate::proofs::PlaceLemmas::none_has_content))]
    #[inline]
    fn empty(alloc: Global) -> WrittenPlace<'b> {
        WrittenPlace {
            slot: RowSlot::new(alloc),
            content: None,
        }
    }

    #[inline(always)]
    fn is_empty(&self) -> bool {
        self.slot.is_none()
    }

    #[inline(always)]
    fn order(&self, other: &WrittenPlace<'b>) -> Option<Ordering> {
        self.slot.order(&other.slot)
    }

    #[inline]
    fn number(&self) -> u64 {
        self.slot.number()
    }

    #[tactic(auto, using(crate::proofs::PlaceLemmas::no_content_of, crate::proofs::PlaceLemmas::raised_has_content))]
    #[inline]
    fn raise(&mut self, number: u64) {
        if self.slot.number() < number {
            self.content = None;
        }
        self.slot.raise(number);
    }

    #[tactic(auto, using(crate::proofs::PlaceLemmas::none_has_content))]
    #[inline]
    fn clear(&mut self) {
        self.slot.clear();
    }

    #[tactic(auto, using(crate::proofs::PlaceLemmas::none_has_content))]
    #[inline]
    fn take(&mut self, alloc: Global) -> Result<Option<Stamped>, AllocError> {
        self.slot.take(alloc)
    }

    #[tactic(auto, using(crate::proofs::PlaceLemmas::no_content_of))]
    #[inline]
    fn put(&mut self, stamped: Stamped) {
        self.content = None;
        self.slot.set(Some(stamped));
    }
}
