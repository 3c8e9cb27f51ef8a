//! Values and rows where they lie: in the bytes of a file, or lent.
//!
//! A `Seen` value takes no memory, and is `copied` where one of its own is wanted; `order_of` compares keys of them. A
//! `RowSlot` is a place for one row at a time, or none: one that lies in bytes or is lent (`SeenRow`), or its own. A
//! slot keeps the memory of the rows that lay in it, so that one row after another takes none. `specs/Seen.antt` says
//! which values and rows these are; a slot is seen as its row.
#![tactic(auto)]

mod order;
mod seen;
mod slot;

pub use order::order_of;
pub use seen::{Seen, copied, lend_values, seen_of, values_of};
pub use slot::{PlacedRow, RowSlot, SeenRow};
