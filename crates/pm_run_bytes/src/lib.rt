//! Rows of a file that is as it is written here, straight from its bytes, without the data between.
//!
//! `Direct` is what is known of such a file: its type is the one that is written, and this is the marker that ends its
//! blocks. A block's rows are read from it (`Direct::read_block`), as long as their kinds are kept as they are, or
//! judged where they lie (`Direct::judge_block`, `src/judge.rt`): none is kept, and no memory is taken for one. Where
//! nothing is answered nothing is known of the block: it is read by its data, which also finds the refusal.
//!
//! `FileRows` gives rows one after another where they lie, into a place that keeps its memory (`specs/Lying.antt`). It
//! knows which they are, since bytes have one list of rows (`specs/Known.antt`). A row that is read where it lies is
//! spelled as it is written, so its bytes can be copied to another file of the form (`FileRows::fill_written`). They
//! stand beside it in a `WrittenPlace`.
#![tactic(auto)]

mod alike;
mod direct;
mod judge;
mod lying;
mod place;
mod same;

pub use direct::Direct;
pub use lying::FileRows;
pub use place::WrittenPlace;
