//! The command `consumers`: list the consumers of a table, or drop one.
//!
//! `specs/Consumers.antt` says what it answers, what it prints, and that it leaves a folder as it is; `specs/Drop.antt`
//! says the same of `consumers --drop`, which takes one file away. Its calls show one answer at most, but that memory
//! may have run out.
#![tactic(auto)]

mod consumers;
mod dropping;
mod laws;

pub use consumers::run_consumers;
pub use dropping::run_drop;
pub use laws::one_answer_law;
