//! The command `create`: make a table.
//!
//! `specs/Create.antt` says what it answers, what it prints, and what it leaves of a history.
#![tactic(auto)]

mod create;

pub use create::run_create;
