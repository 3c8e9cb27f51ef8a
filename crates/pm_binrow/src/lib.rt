//! Binary rows, and the hash that chooses a bucket.
//!
//! The bytes of a row are one definition, `row_bytes` in `specs/Row.antt`: how many columns there are, and then a body
//! of null bytes, slots of eight bytes and tails. `to_binary` writes them, and `from_binary` reads exactly what is
//! written of rows whose values are null or in their types' ranges. So a row has one spelling and a spelling one row,
//! which `row_law` says without a call. `row_in` in `specs/Reading.antt` is the row that bytes are, if they are one;
//! `reading_law` says that it is the one that they are written of. The hash and the bucket are defined in
//! `specs/Hashing.antt`.
//!
//! Writing and reading take time linear in the bytes, and copy only texts and bytes. The hash takes no memory.
#![tactic(auto)]

mod fault;
mod fixed;
mod hashing;
mod laws;
mod null_bytes;
mod reading;
mod text;
mod writing;

pub use fault::BinFault;
pub use hashing::{bucket_of, hash};
pub use laws::{reading_law, row_law};
pub use reading::from_binary;
pub use writing::to_binary;
