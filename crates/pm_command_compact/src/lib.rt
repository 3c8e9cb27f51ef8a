//! The command `compact`: merge a table's data files.
//!
//! `specs/Compact.antt` says what it answers, what it prints, and what it leaves of a history.
#![tactic(auto)]

mod compact;

pub use compact::run_compact;
