//! Values of columns that aren't null, read from the bytes that begin with them, where they lie.
//!
//! A value that is answered is spelled as it is written, so that its bytes can be copied (`specs/Spelled.antt`). Where
//! none is answered the bytes may still begin with one: a number in it may be in more groups than it takes, and memory
//! may have run out.
#![tactic(auto)]

mod leaf;

pub use leaf::{known_bytes, read_int, read_long, read_size, see_scalar};
