//! Rows in little memory.
//!
//! `PackedRows` has the values of all its rows in one piece of memory, and of each row a place of twelve bytes: where
//! its values begin, its number, its kind, and how many values it has. Contracts see the list of rows, as one of
//! `Stamped`. Rows are compared by their keys and lent where they lie; sorting moves places alone. What the bytes mean
//! stands in `specs/Values.antt`, and which row a place stands for in `specs/Rows.antt`; no file has them.
#![tactic(auto)]

mod adding;
mod head;
mod order;
mod raw;
mod rows;
mod taking;

pub use rows::PackedRows;
