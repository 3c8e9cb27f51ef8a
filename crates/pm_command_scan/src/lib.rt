//! The command `scan`: print a table.
//!
//! `specs/Scan.antt` says what it answers, what it prints, and that it leaves a folder as it is.
#![tactic(auto)]

mod laws;
mod scan;

pub use laws::one_answer_law;
pub use scan::run_scan;
