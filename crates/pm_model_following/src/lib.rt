//! What of a table's history is passed on to those who follow it, and how each snapshot changes that.
//!
//! `specs/Groups.antt` says in which partition and bucket a row lies. `specs/Following.antt` says, by changelog
//! producer, up to which entry the rows of a group are passed on at a snapshot, the table that they make, the rows that
//! tell how a snapshot changes it, and the text of these. What is passed on stays so. A snapshot's change, replay on
//! the table that was passed on before it, gives the one that is passed on at it, and stays as it is when more entries
//! come.
#![tactic(auto)]

mod laws;

pub use laws::{finished_law, frames_law, kept_law, passed_law, replay_law, start_law};
