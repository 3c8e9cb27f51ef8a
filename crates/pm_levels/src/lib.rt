//! The runs of a group's files, and which of them a compaction takes.
//!
//! `Levels::of_files` takes the live files of a group and forms its runs, newest first (`specs/Runs.antt`). Each file
//! of level 0 is a run of its own, and the files of a level above it are one run. In which order the files came has no
//! effect (`runs_law`). Where two files of one level above 0 share a key range, it names one of them
//! (`specs/Overlap.antt`), and only then (`overlap_law`); else the ranges of a run rise (`ranges_law`). It sorts the
//! files in place, in about n log n comparisons, and moves each into its run.
//!
//! `pick` chooses which runs a compaction takes and to which level, by their sizes (`Levels::sizes`,
//! `specs/Sizes.antt`) and a table's options (`specs/Picking.antt`). It answers as defined whatever the numbers are,
//! since its sums stop at the greatest number of 128 bits, which no size that they are compared with reaches. What it
//! chooses are the newest runs, to a level that lies between them and the others (`pick_law`); so a run made of them
//! can stand in their place (`replaced_law`).
#![tactic(auto)]

mod choice;
mod fault;
mod laws;
mod levels;
mod overlap;
mod picking;
mod runs;

pub use choice::{Asked, Pick, PickRule};
pub use fault::LevelFault;
pub use laws::{newest_law, overlap_law, pick_law, ranges_law, replaced_law, runs_law};
pub use levels::Levels;
pub use picking::pick;
pub use pm_values::FileMeta;
pub use runs::{RunFiles, RunSize};
