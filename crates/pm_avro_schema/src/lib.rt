//! Avro's types: the JSON texts that declare them, read and written (Apache Avro specification,
//! "Schema Declaration").
//!
//! Contracts see `Txt` as the list of its bytes and `AvroType` by `view`, as the `Avro` of
//! `specs/Avro.antt`. Which type a text declares stands in `specs/Meaning.antt`, which fault a text
//! has in `specs/Reading.antt`, which types are read in `specs/Readable.antt`, and how a type is
//! written in `specs/Writing.antt`.
#![tactic(auto)]

mod fault;
mod field_list;
mod kind;
mod laws;
mod reading;
mod writing;

pub use fault::AvroFault;
pub use kind::AvroType;
pub use laws::reading_law;
pub use reading::parse;
pub use writing::print;
