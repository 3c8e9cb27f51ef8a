//! What a changelog holds of a group: definitions and laws alone.
//!
//! `specs/Log.antt` says what the log of a compaction is, from the group's runs at the snapshot that it began from:
//! of each key of the newer runs, by rising key, what the older ones show and what all of them show. At whichever
//! later snapshot the compaction is published, that is the group's part of the snapshot's change, as long as no more
//! rows of the group were passed on meanwhile (`log_law`). Where an entry passes nothing of a group on, nothing is told
//! of it (`quiet_law`), and with the producer of inputs the group's rows of the entry are (`input_law`). The parts of
//! all groups, merged by key, are the change (`parts_law`). What is passed on of a group at a snapshot are its rows up
//! to one entry (`passed_law`).
//!
//! What a compaction tells of a group by the table's producer is `compaction_log`. Which runs these are for each
//! producer, and that nothing which may come after the base changes the log, follows from what `pm_runs` says of a
//! compaction whose runs still stand (`lookup_log_law`, `full_log_law`).
#![tactic(auto)]

mod laws;

pub use laws::{
    by_key_law, full_log_law, input_law, keys_law, log_law, lookup_log_law, merged_log_law,
    parts_law, passed_law, quiet_law, told_keys_law, told_law,
};
