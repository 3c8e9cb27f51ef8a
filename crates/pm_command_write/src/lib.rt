//! The command `write`: append rows to a table.
//!
//! `specs/Write.antt` says what it answers, what it prints, and what it leaves of a history; `specs/Input.antt` how its
//! input is read.
#![tactic(auto)]

mod input;
mod laws;
mod write;
mod writer;

pub use laws::one_answer_law;
pub use write::{Written, run_write};
pub use writer::Writer;
