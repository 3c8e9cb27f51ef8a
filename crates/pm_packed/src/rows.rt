//! Many packed rows.

ghost use Rattle.std.specs.Prelude.{◌≡◌, ◌<◌, ◌≤◌, ℕ, List, ◌∷◌, [], ◌++◌, length, take, drop, get_or};
ghost use Rattle.std.specs.Prelude.{IfOk, IsTrue, OnErr, OnOk};
ghost use Rattle.std.specs.List.{slice_set};
ghost use Rattle.std.specs.List.Sorted.{IsPermutation, IsSortedByKey, IsStableByKey};
ghost use Rattle.std.specs.Ordering.{eq_by_cmp};
ghost use Rattle.pm_values.specs.Order.{key_cmp};
ghost use Rattle.pm_values.specs.declared.record.Stamped.{Stamped as StampedView};
ghost use Rattle.pm_row_slots.specs.Seen.{seen_row};
ghost use Rattle.pm_row_slots.specs.Slot.{raised};
ghost use Rattle.pm_packed.specs.Rows.{row_at, Grows, LiesAt};

use crate::head::{Head, pack};
use crate::order::order_of;
use crate::taking::{see_values, take_values};
use pm_row_slots::SeenRow;
use pm_values::{Key, Row, Stamped};
use std::alloc::{AllocError, Global};
use std::cmp::Ordering;
use std::marker::Model;

/// Where a row's values begin.
#[derive(Clone, Copy)]
pub(crate) struct Place {
    pub(crate) start: u32,
    pub(crate) head: Head,
}

/// Rows with their keys, their numbers and their kinds, in little memory: the values of all stand in one piece, and a
/// place of twelve bytes says of each where. Contracts see the rows.
#[derive(Drop)]
pub struct PackedRows {
    bytes: Vec<u8>,
    places: Vec<Place>,
    buffer: Vec<u8>,
}

impl Model for PackedRows {
    ghost use Rattle.std.specs.Prelude.{List};
    ghost use Rattle.std.specs.List.{AllByRecursion};
    ghost use Rattle.pm_values.specs.declared.record.Stamped.{Stamped as StampedView};
    ghost use Rattle.pm_packed.specs.Rows.{rows_at, IsWhole};

    ghost Value = { List StampedView };

    ghost view = { λ p. rows_at p.bytes.items p.places.items };

    ghost invariant = { λ p. AllByRecursion (IsWhole p.bytes.items) p.places.items };
}

impl PackedRows {
    /// Has no row yet.
    pub fn new(alloc: Global) -> PackedRows
        ensures { result ≡ [] }
    {
        PackedRows {
            bytes: Vec::new(alloc),
            places: Vec::new(alloc),
            buffer: Vec::new(alloc),
        }
    }

    /// How many they are.
    pub fn len(&self) -> usize
        ensures { result ≡ length self.now }
    {
        self.places.len()
    }

    /// How many bytes the values take of all rows that were ever put here: what a file of them may need.
    pub fn bytes_len(&self) -> usize {
        self.bytes.len()
    }

    /// The same rows, in memory of their own.
    pub fn copy(&self, alloc: Global) -> Result<PackedRows, AllocError>
        ensures { IfOk result (λ copy. copy ≡ self.now) }
    {
        let bytes = Vec::from_slice(alloc, &self.bytes)?;
        let places = Vec::from_slice(alloc, &self.places)?;
        Ok(PackedRows {
            bytes,
            places,
            buffer: Vec::new(alloc),
        })
    }

    /// Adds a row. Without memory for it the rows stay as they are.
    pub fn push(&mut self, row: &Stamped) -> Result<(), AllocError>
        ensures added { OnOk result (self.new ≡ self.old ++ row.now ∷ []) }
        ensures kept { OnErr result (self.new ≡ self.old) }
    {
        let packed = pack(&mut self.buffer, row)?;
        let (_, code) = self.buffer.split_at(packed.offset);
        self.places.try_reserve(1)?;
        let start = add_code(&mut self.bytes, code)?;
        let head = packed.head;
        self.places.push_reserved(Place { start, head });
        Ok(())
    }

    /// Puts a row in the place of another. Its values are added where they aren't those that lie there.
    pub fn set(&mut self, index: usize, row: &Stamped) -> Result<(), AllocError>
        requires { index < length self.old }
        ensures set { OnOk result (self.new ≡ slice_set self.old index row.now) }
        ensures kept { OnErr result (self.new ≡ self.old) }
    {
        let packed = pack(&mut self.buffer, row)?;
        let (_, code) = self.buffer.split_at(packed.offset);
        let near = self.places[index].start;
        let start = find_or_add(&mut self.bytes, near, code)?;
        let head = packed.head;
        self.places[index] = Place { start, head };
        Ok(())
    }

    /// Whether two rows have one key.
    pub fn have_one_key(&self, first: usize, second: usize) -> bool
        requires first { first < length self.now }
        requires second { second < length self.now }
        ensures { (none : StampedView) → result
            ≡ eq_by_cmp key_cmp (get_or self.now first none).key (get_or self.now second none).key }
    {
        order_at(&self.bytes, &self.places[first], &self.places[second]) == Ordering::Equal
    }

    /// Gives a row the number of another one, where this is greater than its own.
    pub fn raise(&mut self, index: usize, other: usize)
        requires index { index < length self.old }
        requires other { other < length self.old }
        ensures { (none : StampedView) → self.new
            ≡ slice_set self.old index (raised (get_or self.old other none).seq (get_or self.old index none)) }
    {
        let number = self.places[other].head.seq;
        let place = self.places[index];
        self.places[index] = raised_place(place, number);
    }

    /// Puts a row in the place of an earlier one, and leaves it in its own.
    pub fn copy_back(&mut self, from: usize, to: usize)
        requires within { from < length self.old }
        requires back { to ≤ from }
        ensures { (none : StampedView) → self.new ≡ slice_set self.old to (get_or self.old from none) }
    {
        self.places[to] = self.places[from];
    }

    /// Leaves the first rows alone.
    pub fn truncate(&mut self, count: usize)
        ensures { self.new ≡ take count self.old }
    {
        self.places.truncate(count);
    }

    /// Sorts the rows by rising key, those of one key in their order. Without memory the rows are the same, in an order
    /// that isn't told.
    pub fn sort(&mut self) -> Result<(), AllocError>
        ensures sorted { OnOk result (IsSortedByKey (λ (s : StampedView). s.key) key_cmp self.new) }
        ensures stable { OnOk result (IsStableByKey (λ (s : StampedView). s.key) key_cmp self.old self.new) }
        ensures same { IsPermutation self.old self.new }
    {
        let bytes: &[u8] = &self.bytes;
        self.places.sort_by(|a, b| order_at(bytes, a, b))
    }

    /// A row, in memory of its own.
    pub fn unpacked(&self, alloc: Global, index: usize) -> Result<Stamped, AllocError>
        requires { index < length self.now }
        ensures { IfOk result (λ row. (none : StampedView) → row ≡ get_or self.now index none) }
    {
        let place = self.places[index];
        let head = place.head;
        let bytes = after(&self.bytes, place.start);
        let mut keys = Vec::with_capacity(alloc, head.key_count as usize)?;
        let mut values = Vec::with_capacity(alloc, head.row_count as usize)?;
        let rest = take_values(alloc, head.key_count, bytes, &mut keys)?;
        let own = if head.begins { bytes } else { rest };
        let _ = take_values(alloc, head.row_count, own, &mut values)?;
        Ok(Stamped {
            key: Key::new(keys),
            seq: u64::from(head.seq),
            kind: head.kind,
            row: Row::new(values),
        })
    }

    /// Lends a row, in the place of the one before.
    pub fn lend<'b>(&'b self, index: usize, row: &mut SeenRow<'b>) -> Result<(), AllocError>
        requires { index < length self.now }
        ensures { OnOk result ((none : StampedView) → seen_row row.new ≡ get_or self.now index none) }
    {
        let place = self.places[index];
        let head = place.head;
        let bytes = after(&self.bytes, place.start);
        row.seq = u64::from(head.seq);
        row.kind = head.kind;
        row.key.clear();
        row.row.clear();
        let rest = see_values(head.key_count, bytes, &mut row.key)?;
        let own = if head.begins { bytes } else { rest };
        let _ = see_values(head.row_count, own, &mut row.row)?;
        Ok(())
    }
}

/// The place with the number, where this is greater than its own.
fn raised_place(place: Place, number: u32) -> Place
    ensures { (bytes : List ℕ) → row_at bytes result ≡ raised number (row_at bytes place) }
{
    let Place { start, head } = place;
    Place {
        start,
        head: Head {
            seq: head.seq.max(number),
            kind: head.kind,
            key_count: head.key_count,
            row_count: head.row_count,
            begins: head.begins,
        },
    }
}

/// The bytes from an offset on.
fn after(bytes: &[u8], start: u32) -> &[u8]
    ensures { result.now ≡ drop start bytes.now }
{
    let (_, rest) = bytes.split_at((start as usize).min(bytes.len()));
    rest
}

/// How the rows at two places compare by their keys.
fn order_at(bytes: &[u8], a: &Place, b: &Place) -> Ordering
    ensures { result ≡ key_cmp (row_at bytes.now a.now).key (row_at bytes.now b.now).key }
{
    order_of(
        a.head.key_count,
        after(bytes, a.start),
        b.head.key_count,
        after(bytes, b.start),
    )
}

/// Adds a code, and gives its offset. Out of memory is also answered where 32 bits don't hold that.
fn add_code(bytes: &mut Vec<u8>, code: &[u8]) -> Result<u32, AllocError>
    ensures lies { IfOk result (LiesAt code.now bytes.new.items) }
    ensures grows { Grows bytes.old.items bytes.new.items }
{
    let Ok(start) = u32::try_from(bytes.len()) else {
        return Err(AllocError);
    };
    bytes.extend_from_slice(code)?;
    Ok(start)
}

/// The offset of a code: that one where it lies there, else the one at which it is added.
fn find_or_add(bytes: &mut Vec<u8>, near: u32, code: &[u8]) -> Result<u32, AllocError>
    ensures lies { IfOk result (LiesAt code.now bytes.new.items) }
    ensures grows { Grows bytes.old.items bytes.new.items }
{
    if lies_at(bytes, near, code) {
        return Ok(near);
    }
    add_code(bytes, code)
}

/// Whether a code lies at the offset.
fn lies_at(bytes: &[u8], start: u32, code: &[u8]) -> bool
    ensures { IsTrue result → LiesAt code.now bytes.now start }
{
    start as usize <= bytes.len() && after(bytes, start).starts_with(code)
}
