//! The command `compact` as a machine: it reads a table's newest view, and the files of the runs that go, creates what
//! they become, and commits that.
//!
//! A `Compactor` reads the view of a table whose schema was read, by the reader of `pm_read_table`, and asks each group
//! for a choice (`pm_choice`); without one it is done. It lists the folder `manifest` once, so that no other actor of
//! its name was there before, and reads the files of the runs that go by the reader of `pm_group_files`; with the
//! producer of look-ups also those of the group's other runs, which are kept as they are. A group's runs become files,
//! and what is told of it its log, as soon as its last file was read (`pm_plan`), and what was read is let go. After
//! the last group the logs are written. Then the commit begins (`pm_commit`): its first try is made and judged before a
//! file is created, so what stands against it comes before any change. The files that were made, changelog files behind
//! all others, are created one by one, and each one's bytes are let go; then come the calls of the commit, at most
//! eleven tries. Whatever others do between, each call changes nothing, or makes a file of the actor's own, or adds the
//! compaction to the history while the newest snapshot stands.
//!
//! `specs/Compactor.antt` has the phases, the calls and what each answer leads to; `specs/Meaning.antt` what it knows
//! in each phase, and what a step means for the files; `specs/Trace.antt` which calls it made, and which of them show a
//! refusal; `specs/AllCalls.antt` what all its calls do where nobody else acts, and `specs/Alone.antt` what is true
//! from call to call then.
#![tactic(auto)]

mod after;
mod all_calls;
mod compactor;
mod create;
mod jobs;
mod laws;
mod machine;
mod meaning;
mod phase;

pub use all_calls::{Compacted, compact_table};
pub use compactor::{CompactStep, Compactor, compact_step, new_compactor};
pub use laws::{causes_law, images_law, known_law};
pub use phase::Phase;
