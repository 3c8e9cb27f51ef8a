//! The engines that keep one row of each key: the last one, or the first one.
//!
//! `Deduplicate` and `FirstRow` are merge engines whose meaning is that of their schema. With `Deduplicate` a stored
//! row is the last of its rows, also one that retracts, since an older run may still have the key. With `FirstRow` it
//! is the first of its rows; no row that retracts is taken.
#![tactic(auto)]

mod deduplicate;
mod first_row;

pub use deduplicate::Deduplicate;
pub use first_row::FirstRow;
