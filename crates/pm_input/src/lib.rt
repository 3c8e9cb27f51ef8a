//! A command's input: its lines within the limits, and the row of each.
//!
//! The definitions stand in `specs/Limits.antt` (the limits, and which is exceeded first), `specs/Lines.antt`
//! (the lines that aren't blank), `specs/Kept.antt` (a line with its number, and how lines are kept),
//! `specs/Refusals.antt` (the refusal of an input that wasn't read) and `specs/Rows.antt` (the row of a line, or the
//! refusal of a bad one).
#![tactic(auto)]

mod blank;
mod judge;
mod kept;
mod laws;
mod limits;
mod lines;
mod refusals;
mod rows;

pub use kept::{InputLine, InputLines, LinesLeft};
pub use laws::limits_law;
pub use limits::{LIMITS, LimitKind, Limits};
pub use lines::{InputFault, read_lines};
pub use refusals::refusal_of;
pub use rows::row_at;
