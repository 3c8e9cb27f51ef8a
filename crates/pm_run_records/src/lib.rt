//! Rows of a file that are read by the data of its records, which finds what is refused.
//!
//! Field names are looked up once for each file, in the type of a record that may have other fields too. Values are
//! moved out of the data; only where the table has partition columns is a key copied from its row. Reading takes time
//! linear in the data, but for the test that names of fields differ, which takes the square of how many there are, once
//! for a file.
//!
//! The names of a schema's columns differ by its rules. Where those of some other schema don't, the answer is that
//! memory ran out.
#![tactic(auto)]

mod row_reader;
mod slot;

pub use row_reader::RowReader;
