//! The old values of keys: what runs have of a key, without all their rows.
//!
//! A `Lookup` has the bytes of a group's runs, the newest first, and is asked for keys. Of a key only those files are
//! opened whose range holds it, and of these the blocks are read up to the first whose last key isn't below it
//! (`specs/Looking.antt`), where its row is, if the file has one. The rows found are combined to one stored row
//! (`specs/Lookup.antt`). A fault in another file or another block isn't found, and so changes no answer.
//!
//! The last block that was read of a file is kept, and where looking came from: for keys that rise no block is read
//! twice, and a file whose keys all were asked for is read once. For a lower key a file is read from its beginning. A
//! key outside the file's range lets the block go, so of the files of a run one has a block in memory.
//!
//! The bytes of a file go into its reader, so they are held once; where it can't be opened they are gone, and nothing
//! more is answered of it.
#![tactic(auto)]

mod file;
mod laws;
mod lookup;
mod open_file;

pub use laws::old_value_law;
pub use lookup::Lookup;
