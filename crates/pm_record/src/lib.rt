//! A record's fields by their names: found in a type once, and then taken from each datum of the type. And files of
//! records: container files that are read as records, and written of their data.
//!
//! `Selection::of` takes time linear in a type's fields but for the look-ups in a map of their names, and
//! `Selection::read` time linear in the names. Data are moved and never copied.
//!
//! What reads one kind of record is a `ReadRecord`. By it `read_block` reads the block at an offset, and `read_records`
//! all blocks of a file. The first fault in the order of bytes is the refusal: `Damaged` at 0 where what stands before
//! the blocks isn't that of a container file, and at a block's offset where it isn't one or a datum of it is no such
//! record; `Unsupported` for a codec or a type that isn't read, and for a text that a record's reader doesn't support.
//! `write_records` writes so many data in each block but the last. Both take time linear in the bytes; reading holds
//! one decoded block beside the records.
//!
//! What a type and a datum are seen as stands in pm_avro_schema and pm_avro_data. `specs/Record.antt` says which field
//! a name means, what stands at names in a datum, and which type stands beside null; `specs/Scalar.antt` says what a
//! datum that holds no other data is read as; `specs/File.antt` says what the bytes of a file are read as, which
//! fault comes first, and which bytes are written. `proofs/Facts.antt` has what other crates' proofs use: what a call
//! that reads a file answers, and that blocks that are read in turn are the file.
#![tactic(auto)]

mod index;
mod laws;
mod misfit;
mod reading;
mod record;
mod scalar;
mod selection;
mod writing;

pub use index::all_differ;
pub use laws::{absent_law, one_reading_law, present_law, records_law, selected_law, written_law};
pub use misfit::Misfit;
pub use reading::{ReadRecord, damaged, open_file, open_file_by, read_block, read_records};
pub use record::{field_kind, present};
pub use scalar::{read_boolean, read_int, read_long, take_bytes, take_text};
pub use selection::Selection;
pub use writing::write_records;
