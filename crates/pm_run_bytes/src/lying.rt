//! Rows of a judged file that are given one after another, where they lie in its bytes.

ghost use Rattle.std.specs.Prelude.{◌≡◌, ◌<◌, ◌≤◌, ◌-◌, List, None, OnOk, length, take};
ghost use Rattle.std.specs.Coded.{codes};
ghost use Rattle.pm_values.specs.declared.record.Stamped.{Stamped};
ghost use Rattle.pm_run_bytes.specs.Known.{KnownRows, LieAt, one_known};

use crate::alike::are_alike;
use crate::direct::Direct;
use crate::judge::see_row;
use pm_row_slots::RowSlot;
use pm_run_form::TableForm;
use std::alloc::{AllocError, Global};

/// Rows of a judged file that are given one after another, where they lie. It knows them.
#[derive(Drop)]
pub struct FileRows<'b> {
    form: &'b TableForm,
    /// Whether it is a changelog file.
    changes: bool,
    /// All bytes of the file.
    bytes: &'b [u8],
    direct: &'b Direct,
    /// What is left of the bytes of the block in hand.
    rest: &'b [u8],
    /// How many rows these are.
    left: usize,
    /// The offset of the next block.
    next: usize,
    ghost known: { KnownRows direct.now bytes.now form.now changes rest.now left next } by { one_known
        (Prim.hlevel codes) direct.now bytes.now form.now changes rest.now left next },
}

impl<'b> FileRows<'b> {
    ghost use Rattle.std.specs.Prelude.{IfOk, IsTrue};
    ghost use Rattle.pm_run_bytes.specs.Lying.{GivesFirst, IsContentOf, lying_rows};

    /// The rows of the blocks from an offset on.
    pub fn new(
        form: &'b TableForm,
        changes: bool,
        bytes: &'b [u8],
        direct: &'b Direct,
        next: usize,
    ) -> FileRows<'b>
        requires { (rows : List Stamped) × ∥ LieAt direct.now bytes.now form.now changes next rows ∥₁ }
        ensures { (rows : List Stamped) → LieAt direct.now bytes.now form.now changes next rows
            → lying_rows result ≡ rows }
    {
        FileRows {
            form,
            changes,
            bytes,
            direct,
            rest: &[],
            left: 0,
            next,
        }
    }

    /// Puts the next row into an empty place, or none at the end. It takes memory only where the place had no row of as
    /// many values yet. Bytes that can't be read as they were judged are answered as out of memory.
    pub fn fill(&mut self, alloc: Global, slot: &mut RowSlot<'b>) -> Result<(), AllocError>
        requires { slot.old ≡ None }
        ensures { OnOk result (GivesFirst (lying_rows self.old) slot.new (lying_rows self.new)) }
    {
        let _own = self.fill_written(alloc, slot)?;
        Ok(())
    }

    /// The same, and the bytes of the row, which are those that are written of it; none at the end.
    #[inline(always)]
    pub fn fill_written(
        &mut self,
        alloc: Global,
        slot: &mut RowSlot<'b>,
    ) -> Result<&'b [u8], AllocError>
        requires { slot.old ≡ None }
        ensures first { OnOk result (GivesFirst (lying_rows self.old) slot.new (lying_rows self.new)) }
        ensures written { IfOk result (λ own. IsContentOf self.old.form.now slot.new own.now) }
        ensures form { OnOk result (self.new.form.now ≡ self.old.form.now) }
    {
        if self.left == 0 {
            if self.next == self.bytes.len() {
                return Ok(&[]);
            }
            self.next_block(alloc)?;
        }
        let own = self.next_row(alloc, slot)?;
        Ok(own)
    }

    /// Whether it is known that the rows are of the form.
    pub fn has_form(&self, form: &TableForm) -> bool
        ensures { IsTrue result → self.now.form.now ≡ form.now }
    {
        are_alike(self.form, form)
    }

    /// Takes the next block in hand, where no row is left of the last one. A block that was judged has rows.
    fn next_block(&mut self, alloc: Global) -> Result<(), AllocError>
        requires { self.old.left ≡ 0 }
        ensures same { OnOk result (lying_rows self.new ≡ lying_rows self.old) }
        ensures some { OnOk result (0 < self.new.left) }
        ensures form { OnOk result (self.new.form.now ≡ self.old.form.now) }
    {
        let Some((count, content, next)) = self.direct.content(alloc, self.bytes, self.next) else {
            return Err(AllocError);
        };
        self.rest = content;
        self.left = count;
        self.next = next;
        Ok(())
    }

    /// Puts the next row of the block in hand into an empty place, and answers its bytes.
    #[inline(always)]
    fn next_row(&mut self, alloc: Global, slot: &mut RowSlot<'b>) -> Result<&'b [u8], AllocError>
        requires left { 0 < self.old.left }
        requires none { slot.old ≡ None }
        ensures first { OnOk result (GivesFirst (lying_rows self.old) slot.new (lying_rows self.new)) }
        ensures written { IfOk result (λ own. IsContentOf self.old.form.now slot.new own.now) }
        ensures form { OnOk result (self.new.form.now ≡ self.old.form.now) }
    {
        let mut row = slot.take_room(alloc);
        let Some(rest) = see_row(alloc, self.form, self.changes, self.rest, &mut row) else {
            return Err(AllocError);
        };
        let own = before_rest(self.rest, rest);
        slot.put_lying(row);
        self.rest = rest;
        self.left -= 1;
        Ok(own)
    }
}

/// The bytes before a rest.
#[inline(always)]
fn before_rest<'b>(bytes: &'b [u8], rest: &[u8]) -> &'b [u8]
    requires { length rest.now ≤ length bytes.now }
    ensures { result.now ≡ take (length bytes.now - length rest.now) bytes.now }
{
    bytes.split_at(bytes.len() - rest.len()).0
}
