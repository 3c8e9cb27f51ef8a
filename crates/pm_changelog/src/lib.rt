//! The log of a group: what an entry changes for those who follow its table, and the changelog file that it becomes.
//!
//! `specs/GroupLog.antt` says what the log of a group is, whichever producer made it: it tells the group's part of the
//! change of the entry's snapshot. `input_log` makes it of the rows that a table took, by rising key, those of one key
//! in their order. `write_log` writes a log to one file, and no file where it tells nothing (`specs/Written.antt`).
//! `group_log_law` says what these are for: the file holds what the snapshot changes of the group.
#![tactic(auto)]

mod group_log;
mod laws;
mod written;

pub use group_log::{GroupLog, input_log};
pub use laws::group_log_law;
pub use written::write_log;
