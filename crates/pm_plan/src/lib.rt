//! A compaction's plan as it grows: what goes, and group by group the files that come.
//!
//! `planned_of` begins it with the groups of a view that have a choice: the entries of their files that go, and how an
//! entry of a history names them. `rewrite_groups` makes the runs of groups that were read, the first of those that are
//! left, into files at their level, each with its entry; a group's droppable rows are left out exactly where all of its
//! runs go. Before its files each group gets its log (`pm_group_log`). Once no group is left `tell` writes the logs,
//! one group's after another's, so that changelog files have the names after those of all data files. The files have
//! their bytes and their paths, and wait to be created; after a refusal the plan is gone. `into_commit` has what the
//! commit is for. `planned_law` says what is known of it all along, from groups on that were chosen of the runs at its
//! base: of which runs each group's files were made, so that in the end this is what a commit has to know.
//! `specs/Planned.antt` and `specs/Known.antt` have the definitions. Nothing here calls a store.
#![tactic(auto)]

mod laws;
mod planned;

pub use laws::planned_law;
pub use planned::{Asking, Planned, PlannedCommit, planned_of};
