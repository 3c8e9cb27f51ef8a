//! What a compaction of a table takes: which groups, which of their runs, and which files go with these.
//!
//! `asked_in` answers how much is asked of each group of a view: all runs, by the word or by
//! `full-compaction.delta-commits`; or else what their sizes ask for, with the producer `lookup` also level 0.
//! `chosen_in` asks each group, and keeps those with a choice, rising (`choices_law`); `removed_in` has the entries of
//! the files that go, by group and newest run first, each of them a live one (`removed_law`); `groups_in` names the
//! groups as a history's entry does. The runs that go are of stored rows (`stored_law`). `specs/Choice.antt` has the
//! definitions. Nothing here calls a store.
#![tactic(auto)]

mod choice;
mod laws;
mod question;
mod removed;

pub use choice::{ChosenGroup, chosen_in, groups_in};
pub use laws::{choices_law, removed_law, stored_law};
pub use question::{asked_in, full_in, rule_of};
pub use removed::removed_in;
