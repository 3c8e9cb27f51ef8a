//! Row lines read straight from their tokens, as `pm_rows` reads them from their JSON.
//!
//! A line whose tokens are an array of a kind and a plain item for each column, each of which its column
//! takes, is read without a tree of its JSON, and a reader keeps its memory from line to line. Any other
//! line is given to `pm_rows::read_row`, which says what is wrong with it.
#![tactic(auto)]

mod integers;
mod line_reader;
mod tokens;

pub use line_reader::LineReader;
