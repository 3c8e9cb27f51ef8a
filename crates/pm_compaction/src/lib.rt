//! What a compaction alone means: definitions and laws alone, on which its commit rests.
//!
//! `specs/Plan.antt` says what is known of a compaction that was planned at its base: what was taken of each group, the
//! files that were made of that, what is told of the group, as its changelog file, and the plan's entries, which are
//! those of these files; their names are the actor's. What a compaction tells of a group by the table's producer is
//! `compaction_log` of `pm_model_changelog`. All this stays so whoever commits (`plan_law`), and it shows most of what
//! a try by the plan needs to be ready (`ready_law`).
//!
//! Where the snapshot of such a try appears after the newest, it adds its entry to the history, and each group's runs
//! go on (`compaction_law`): what was taken still stands together there, since a live file of each of these runs was
//! found, and at most one run takes its place. Its changelog files hold the change of its snapshot, though they were
//! made at its base: no more rows of a group were passed on meanwhile. `specs/Compacted.antt` says what the snapshot
//! is, to its last field.
#![tactic(auto)]

mod laws;

pub use laws::{compaction_law, plan_law, ready_law};
