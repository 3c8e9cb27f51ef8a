//! The older rows of keys that rise, of runs that are merged.

ghost use Rattle.std.specs.Prelude.{◌≡◌, ◌≢◌, ◌≤◌, List, None, Some, IfErr, IfOk, OnOk, map, option_map};
ghost use Rattle.pm_engine.specs.Meaning.{Meaning};
ghost use Rattle.pm_merge.specs.Merging.{HaveNoRefusal, HaveNoRow, first_refusal};
ghost use Rattle.pm_merge.specs.Source.{Rest};
ghost use Rattle.pm_values.specs.declared.record.Stamped.{Stamped as StampedView};
ghost use Rattle.pm_values.specs.declared.refusal.Refusal.TheVariants.{Memory};
ghost use Rattle.pm_lookup.specs.Lookup.{stored_part};
ghost use Rattle.pm_compaction_log.specs.Older.{AreLeft, FindsOlder, most_left};

use pm_engine::{MergeEngine, Stored};
use pm_merge::{Merging, RowSource, given_law};
use pm_row_slots::RowSlot;
use pm_values::Refusal;
use std::alloc::{AllocError, Global};
use std::cmp::Ordering;

/// The rows of runs that are merged, one after another. The first one of those that are left may stand in its place.
#[derive(Drop)]
pub(crate) struct OlderRows<'b, S> {
    merging: Merging<RowSlot<'b>, S>,
    first: Box<RowSlot<'b>>,
}

impl<'b, S: RowSource<RowSlot<'b>>> OlderRows<'b, S> {
    /// The rows of sources, the oldest first.
    pub(crate) fn of(alloc: Global, older_first: Vec<S>) -> Result<OlderRows<'b, S>, AllocError>
        ensures { IfOk result (λ o. (m : Meaning) → AreLeft m S.rest o (map S.rest older_first.items)) }
    {
        let merging = Merging::of(alloc, older_first)?;
        let first = Box::new(alloc, RowSlot::new(alloc))?;
        Ok(OlderRows { merging, first })
    }

    /// The stored row of the key of a newer row, if there is one. Rows with lower keys are given up.
    pub(crate) fn find<E: MergeEngine>(
        &mut self,
        alloc: Global,
        engine: &E,
        newer: &RowSlot<'b>,
    ) -> Result<Option<Stored>, Refusal>
        ensures finds { IfOk result (λ older. (x : StampedView) (rests : List Rest) → newer.now ≡ Some x
            → AreLeft (E.meaning engine.now) S.rest self.old rests
            → (left : List Rest) × AreLeft (E.meaning engine.now) S.rest self.new left
            × FindsOlder (E.meaning engine.now) x.key rests older left) }
        ensures memory { IfErr result (λ e. (x : StampedView) (rests : List Rest) → newer.now ≡ Some x
            → AreLeft (E.meaning engine.now) S.rest self.old rests → HaveNoRefusal rests → e ≡ Memory) }
    {
        given_law();
        loop {
            self.ready(alloc, engine)?;
            match self.first.order(newer) {
                Some(Ordering::Less) => self.first.clear(),
                Some(Ordering::Equal) => return Ok(taken(alloc, &mut self.first)?),
                Some(Ordering::Greater) => return Ok(None),
                None => return Ok(None),
            }
        }
    }

    /// Puts the next row into the first place, if none stands there and one is left.
    fn ready<E: MergeEngine>(&mut self, alloc: Global, engine: &E) -> Result<(), Refusal>
        ensures left { OnOk result ((rests : List Rest) → AreLeft (E.meaning engine.now) S.rest self.old rests
            → AreLeft (E.meaning engine.now) S.rest self.new rests
            × (self.new.first.value ≡ None → HaveNoRow rests)) }
        ensures fewer { OnOk result (most_left S.rest self.new ≤ most_left S.rest self.old) }
        ensures refuses { IfErr result (λ e. e ≢ Memory → (rests : List Rest)
            → AreLeft (E.meaning engine.now) S.rest self.old rests → first_refusal rests ≡ Some e) }
    {
        if !self.first.is_none() {
            return Ok(());
        }
        self.merging.fill(alloc, engine, &mut self.first)?;
        Ok(())
    }
}

/// The stored row of a place, which leaves it.
fn taken(alloc: Global, slot: &mut RowSlot) -> Result<Option<Stored>, AllocError>
    ensures row { IfOk result (λ stored. stored ≡ option_map stored_part slot.old) }
    ensures none { OnOk result (slot.new ≡ None) }
{
    match slot.take(alloc)? {
        Some(row) => Ok(Some(Stored {
            kind: row.kind,
            row: row.row,
        })),
        None => Ok(None),
    }
}
