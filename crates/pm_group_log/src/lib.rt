//! What a compaction tells of a group, of what was read of it.
//!
//! `group_log` makes the log of a chosen group: of its runs that go the newer ones are compared with the older ones,
//! which are read along, and with the producer of look-ups also with the runs that stay, in whose files old values are
//! looked up. Which runs are newer is a matter of their level: with look-ups those of level 0, with full compactions
//! all below the highest. A group whose runs don't all go has no log with full compactions, and with no producer or
//! that of inputs nothing is told of a compaction. `specs/Told.antt` has the definitions. `known_log_law` says what
//! this is for: where the files have the rows of the group's runs, as they are known at a snapshot, the log is the one
//! that a compaction tells of that group. Nothing here calls a store.
#![tactic(auto)]

mod kept;
mod laws;
mod sides;
mod telling;

pub use laws::known_log_law;
pub use telling::group_log;
