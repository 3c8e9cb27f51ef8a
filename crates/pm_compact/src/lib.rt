//! One run of several: what a compaction makes of a group's runs.
//!
//! `Rewriting` merges the runs of a group, whatever their rows come from, and gives the run that they become file by
//! file, each of at most 65536 rows, at a level. Rows go from where they stand into the bytes of a file, one after
//! another, so that beside what the sources hold there are in memory the file in hand, and two places for rows of each
//! two sources that are merged. A row whose bytes are known is written by a copy of them. The droppable rows are left
//! out where the caller says so, which is right where all runs of the group are taken. `rewrite` makes all files at
//! once. `specs/Rewritten.antt` says which files these are, and `specs/Rewriting.antt` what was given.
//!
//! `rewritten_law` says what that is for: the run takes the place of the runs, between whatever others, or, without
//! the droppable rows, where none is older; it is no file exactly where it has no row; each file tells the level and
//! how many rows it has. The files are read as that run. Whether a row is droppable depends on its kind alone
//! (`drops_by_kind_law`), so it is judged without a copy.
#![tactic(auto)]

mod laws;
mod rewriting;

pub use laws::{drops_by_kind_law, rewritten_law};
pub use rewriting::{Rewriting, rewrite};
