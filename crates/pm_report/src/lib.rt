//! The line of a refusal, written without taking memory, and the exit status.
//!
//! The lines stand in `specs/Report.antt`, and how control characters are printed in `specs/Escaping.antt`.
#![tactic(auto)]

mod escaping;
mod laws;
mod reports;

pub use laws::one_line_law;
pub use reports::{report, status};
