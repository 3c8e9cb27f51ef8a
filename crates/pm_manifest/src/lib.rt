//! Manifests: what they list, and the live files that their entries leave.
//!
//! An entry adds a file or deletes one. A file is known by its group, its name and its level, so a file is moved to
//! another level by a DELETE and an ADD. What is live of a file after a list of entries is said in `specs/Live.antt`
//! by the last of them that is of the file, apart from how it is found; `joined_law` says that lists can be folded
//! one after another.
//!
//! Lists and manifests are Avro files of records, of the types in `specs/Type.antt`. What a record is read as, and what
//! is written of one, is said in `specs/Listed.antt` and `specs/Entries.antt`, and what of a table's schema it depends
//! on in `specs/Shape.antt`. What is written is read as the same, by `written_entry_law`; what is read can be written,
//! by `read_entry_law`. `pm_manifest_reader` reads the files, and `pm_manifest_writer` writes them.
//!
//! `fold_entries` takes about constant time an entry: it moves the entry into a hash map, and copies its id once.
#![tactic(auto)]

mod entry;
mod file_id;
mod laws;
mod live;

pub use entry::{Entry, ManifestMeta};
pub use file_id::FileId;
pub use laws::{
    id_law, joined_law, last_law, live_law, move_law, read_entry_law, written_entry_law,
};
pub use live::fold_entries;
