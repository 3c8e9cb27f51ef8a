//! The command `snapshots`: list the snapshots of a table.
//!
//! `specs/Snapshots.antt` says what it answers, what it prints, and that it leaves a folder as it is; and of which
//! snapshots it printed the lines where others act beside it. Its calls show one answer at most, but that memory may
//! have run out.
#![tactic(auto)]

mod laws;
mod snapshots;

pub use laws::one_answer_law;
pub use snapshots::run_snapshots;
