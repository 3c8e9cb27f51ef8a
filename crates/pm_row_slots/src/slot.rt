//! Places for rows.

ghost use Rattle.std.specs.Prelude.{◌≡◌, [], None, Some, IfOk, OnErr, OnOk, is_none, map, option_map};
ghost use Rattle.pm_values.specs.declared.record.Stamped.{Stamped as StampedView};
ghost use Rattle.pm_row_slots.specs.Seen.{seen_row, seen_value};
ghost use Rattle.pm_row_slots.specs.Slot.{OrdersFirst, number_of, placed_row, raised};

use crate::order::{order_before, order_of, order_with};
use crate::seen::{Seen, lend_values, values_of};
use pm_values::{Key, Kind, Row, Stamped};
use std::alloc::{AllocError, Global};
use std::cmp::Ordering;
use std::marker::Model;
use std::mem;

/// A row that lies in bytes or is lent, with its key, its number and its kind.
pub struct SeenRow<'b> {
    pub key: Vec<Seen<'b>>,
    pub seq: u64,
    pub kind: Kind,
    pub row: Vec<Seen<'b>>,
}

impl Drop for SeenRow<'_> {
    fn drop(self) {
        let SeenRow {
            key,
            seq,
            kind,
            row,
        } = self;
    }
}

impl<'b> SeenRow<'b> {
    /// Room for a row, which has no values yet.
    pub fn new(alloc: Global) -> SeenRow<'b>
        ensures key { result.key.items ≡ [] }
        ensures row { result.row.items ≡ [] }
    {
        SeenRow {
            key: Vec::new(alloc),
            seq: 0,
            kind: Kind::Insert,
            row: Vec::new(alloc),
        }
    }

    /// This row, lent.
    pub fn lend(&mut self, row: &'b Stamped) -> Result<(), AllocError>
        ensures { OnOk result (seen_row self.new ≡ row.now) }
    {
        self.seq = row.seq;
        self.kind = row.kind;
        lend_values(row.key.values(), &mut self.key)?;
        lend_values(row.row.values(), &mut self.row)
    }
}

/// The row of a place, where it stands: it lies in bytes or is lent, or is one of the place's own.
#[derive(Clone, Copy)]
pub enum PlacedRow<'s, 'b> {
    Lying(&'s SeenRow<'b>),
    Own(&'s Stamped),
}

/// A place for a row: none, one that lies in bytes or is lent, which is in `seen` where `lies` says so, or one of its
/// own.
pub struct RowSlot<'b> {
    lies: bool,
    seen: SeenRow<'b>,
    own: Option<Stamped>,
}

impl Drop for RowSlot<'_> {
    fn drop(self) {
        let RowSlot { lies, seen, own } = self;
    }
}

impl<'b> Model for RowSlot<'b> {
    ghost use Rattle.std.specs.Prelude.{Option};
    ghost use Rattle.pm_values.specs.declared.record.Stamped.{Stamped as StampedView};
    ghost use Rattle.pm_row_slots.specs.Slot.{row_in};

    ghost Value = { Option StampedView };

    ghost view = { λ s. row_in s.lies s.seen s.own };
}

impl<'b> RowSlot<'b> {
    /// A place without a row.
    pub fn new(alloc: Global) -> RowSlot<'b>
        ensures { result ≡ None }
    {
        RowSlot {
            lies: false,
            seen: SeenRow::new(alloc),
            own: None,
        }
    }

    /// Puts a row of its own into the place, or none, whatever stood there.
    #[inline]
    pub fn set(&mut self, row: Option<Stamped>)
        ensures { self.new ≡ row }
    {
        self.lies = false;
        self.own = row;
    }

    /// Puts a row into the place, lent, whatever stood there. It takes memory only where the place had no row of as
    /// many values yet.
    pub fn lend(&mut self, row: &'b Stamped) -> Result<(), AllocError>
        ensures lent { OnOk result (self.new ≡ Some row.now) }
        ensures none { OnErr result (self.new ≡ None) }
    {
        self.lies = false;
        self.own = None;
        self.seen.lend(row)?;
        self.lies = true;
        Ok(())
    }

    /// The place's room for a row that lies in bytes, with the memory that it has, for `put_lying`. No row stands in
    /// the place any more.
    #[inline]
    pub fn take_room(&mut self, alloc: Global) -> SeenRow<'b>
        ensures { self.new ≡ None }
    {
        self.lies = false;
        self.own = None;
        mem::replace(&mut self.seen, SeenRow::new(alloc))
    }

    /// Puts a row that lies in bytes into the place, whatever stood there. Its memory is now the place's room.
    #[inline]
    pub fn put_lying(&mut self, row: SeenRow<'b>)
        ensures { self.new ≡ Some (seen_row row.entry) }
    {
        self.seen = row;
        self.lies = true;
    }

    /// The row, where it stands.
    #[inline]
    pub fn row(&self) -> Option<PlacedRow<'_, 'b>>
        ensures { option_map placed_row result ≡ self.now }
    {
        if self.lies {
            return Some(PlacedRow::Lying(&self.seen));
        }
        match &self.own {
            Some(own) => Some(PlacedRow::Own(own)),
            None => None,
        }
    }

    /// No row stands in it any more.
    pub fn clear(&mut self)
        ensures { self.new ≡ None }
    {
        self.lies = false;
        self.own = None;
    }

    /// The number of the row that stands in it, or 0.
    pub fn number(&self) -> u64
        ensures { result ≡ number_of self.now }
    {
        if self.lies {
            return self.seen.seq;
        }
        match &self.own {
            Some(own) => own.seq,
            None => 0,
        }
    }

    /// Gives the row that stands in it the number, where this is greater than its own.
    pub fn raise(&mut self, number: u64)
        ensures { self.new ≡ option_map (raised number) self.old }
    {
        if self.lies {
            self.seen.seq = self.seen.seq.max(number);
        } else if let Some(own) = &mut self.own {
            own.seq = own.seq.max(number);
        }
    }

    /// The row, which leaves the place, in memory of its own.
    pub fn take(&mut self, alloc: Global) -> Result<Option<Stamped>, AllocError>
        ensures row { IfOk result (λ row. row ≡ self.old) }
        ensures none { OnOk result (self.new ≡ None) }
    {
        if self.lies {
            self.lies = false;
            self.own = None;
            Ok(Some(stamped_of(alloc, &self.seen)?))
        } else {
            Ok(self.own.take())
        }
    }

    /// How the rows of two places compare by their keys, as if a place without one had one above all; none where both
    /// have none.
    #[inline(always)]
    pub fn order(&self, other: &RowSlot<'b>) -> Option<Ordering>
        ensures { OrdersFirst self.now other.now result }
    {
        if self.lies {
            order_of_lying(&self.seen.key, other)
        } else {
            match &self.own {
                Some(own) => order_of_own(own, other),
                None if other.is_none() => None,
                None => Some(Ordering::Greater),
            }
        }
    }

    /// Whether no row stands in it.
    #[inline(always)]
    pub fn is_none(&self) -> bool
        ensures { result ≡ is_none self.now }
    {
        !self.lies && self.own.is_none()
    }
}

/// How a row that lies in bytes compares with that of a place, by its key.
#[inline(always)]
fn order_of_lying(key: &[Seen], other: &RowSlot) -> Option<Ordering>
    ensures { (a : StampedView) → a.key ≡ map seen_value key.now → OrdersFirst (Some a) other.now result }
{
    if other.lies {
        return Some(order_of(key, &other.seen.key));
    }
    match &other.own {
        Some(own) => Some(order_with(key, own.key.values())),
        None => Some(Ordering::Less),
    }
}

/// How a row of its own compares with that of a place.
#[inline(never)]
fn order_of_own(own: &Stamped, other: &RowSlot) -> Option<Ordering>
    ensures { OrdersFirst (Some own.now) other.now result }
{
    if other.lies {
        return Some(order_before(own.key.values(), &other.seen.key));
    }
    match &other.own {
        Some(another) => Some(own.key.cmp(&another.key)),
        None => Some(Ordering::Less),
    }
}

/// The row, in memory of its own.
fn stamped_of(alloc: Global, seen: &SeenRow) -> Result<Stamped, AllocError>
    ensures { IfOk result (λ row. row ≡ seen_row seen.now) }
{
    Ok(Stamped {
        key: Key::new(values_of(alloc, &seen.key)?),
        seq: seen.seq,
        kind: seen.kind,
        row: Row::new(values_of(alloc, &seen.row)?),
    })
}
