//! Avro's object container files, written and read a block at a time (Apache Avro specification, "Object Container
//! Files").
//!
//! `IsContainer` says which bytes are a file of a type, with which blocks of data and which marker. Contracts see a
//! `FileReader` as the record of `specs/Reader.antt`. What the metadata of a header say stands in
//! `specs/Header.antt`, and the bytes that are written in `specs/Writing.antt`. The laws speak of the relations alone,
//! and of what the calls answer.
//!
//! The type of a file can be known from another one (`KnownType`): where both headers have the same text of it, that is
//! read as a type once.
//!
//! A file is written of its data in blocks, or begun and given one block after another, each by its data's bytes
//! (`specs/Begun.antt`).
//!
//! Reading goes on in the slice that is left, takes time linear in the bytes, and holds one decoded block, which takes
//! no more memory than the block's bytes allow (`Room` of `pm_avro_data`).
#![tactic(auto)]

mod begun;
mod block;
mod header;
mod known;
mod laws;
mod part;
mod reader;
mod stop;
mod writing;

pub use begun::{add_block, begin_file};
pub use known::KnownType;
pub use laws::{
    begun_file_law, damaged_file_law, one_answer_law, one_block_law, one_file_law, one_opening_law,
    reread_law, unread_file_law, whole_file_law,
};
pub use reader::FileReader;
pub use writing::write_file;
