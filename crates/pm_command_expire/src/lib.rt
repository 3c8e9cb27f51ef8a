//! The command `expire`: remove a table's oldest snapshots, and what they alone need.
//!
//! `specs/Expire.antt` says what it answers, what it prints, what it leaves of a folder where nobody else acts, and
//! what its calls do beside others. Its calls show one answer at most, but that memory may have run out.
#![tactic(auto)]

mod expire;
mod laws;

pub use expire::run_expire;
pub use laws::one_answer_law;
