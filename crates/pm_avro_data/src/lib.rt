//! Avro's binary encoding of data (Apache Avro specification, "Binary Encoding"), exact both ways.
//!
//! `IsDatum` says which texts are a datum of a type, and then a rest. `decode` answers the datum that the bytes
//! begin with, and `Bad` where they begin with none. `encode` writes the shortest spelling, in the closed form
//! `encoding`. The laws speak of the relation alone. `decode_in` and `encode_to` do the same for many data of one
//! text. The calls of `src/adding.rt` write a datum from where it lies, with no `Datum` of it: `Adds` says which bytes
//! they add.
//!
//! Both take time linear in the bytes, for each type that `parse` gives: reading goes on in the slice that is left,
//! and only the content of bytes and texts is copied. The stack is as deep as the type, whatever the bytes say, and
//! the memory that data take is bounded by their bytes (`src/room.rt`).
//! Measured on one processor, in millions of bytes a second: a million longs (6.4 million bytes) are decoded at 150
//! and encoded at 290, 100000 records of a long and a union of null and string (2.5 million bytes) at 185 and 650.
#![tactic(auto)]

mod adding;
mod block;
mod datum;
mod laws;
mod leaf;
mod number;
mod reading;
mod room;
mod writing;

pub use adding::{add_boolean, add_branch, add_bytes, add_int, add_long, add_text};
pub use datum::{Datum, Leaf};
pub use laws::{one_datum_law, one_prefix_law, one_type_law, shortest_law};
pub use reading::{decode, decode_in};
pub use room::Room;
pub use writing::{encode, encode_to};
