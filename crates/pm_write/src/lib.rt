//! The rows of a batch, and the files that they become.
//!
//! `Batch::read` takes the rows of numbered lines that the table's engine takes, in order, or answers the first
//! refusal (`specs/Taken.antt`). It cuts them by group, as `pm_group_rows` does, and makes one run of each group's
//! rows, whose numbers count them from 0 (`specs/Batch.antt`). Where the table passes its input on, a batch keeps the
//! log of each group beside the run: the rows that were taken of it, by key. `Batch::files` writes each run to a file
//! of its own at level 0, its numbers counted from the group's next one, and behind these files each log to a changelog
//! file (`specs/Files.antt`). It leaves the batch as it was, so that a commit that lost is tried again with other
//! numbers and other names: the rows stand in the batch, packed, and are counted as they are written.
//! `src/laws.rt` has what follows: a run covers its group's rows whatever number they count from, each of its rows is
//! the stored row of its key's rows, a file is read as its run, and a changelog file as its group's rows by key.
#![tactic(auto)]

mod batch;
mod files;
mod held;
mod laws;
mod numbered;
mod taken;

pub use batch::Batch;
pub use files::NewFile;
pub use laws::{batch_law, written_law};
