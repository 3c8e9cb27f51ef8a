//! Row lines: a row of a table as one line of JSON, both ways.
//!
//! A line is an array of the kind and one item for each column: true or false in a BOOLEAN one, an
//! integer in a TINYINT, SMALLINT, INT, BIGINT or TIMESTAMP(3) one (the last in milliseconds), a
//! string in a STRING one, one of hexadecimal digits in a BYTES one, one of `YYYY-MM-DD` in a DATE
//! one. The definitions stand in `specs/Reading.antt` (what a line reads as) and
//! `specs/RowText.antt` (what a row prints as). A row is printed from its values where they lie.
#![tactic(auto)]

mod fault;
mod laws;
mod plain;
mod print;
mod read;

pub use fault::RowFault;
pub use laws::{fit_law, line_law, round_trip_law};
pub use print::{print_row, push_row};
pub use read::read_row;
