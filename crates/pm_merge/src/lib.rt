//! Runs made into one run.
//!
//! `merge_runs` makes one run of several, the oldest first: it covers the rows that they cover, also in their place
//! between other runs (`specs/Merge.antt`, `replaces_law`), and may leave out the stored rows that have no effect where
//! nothing older is left (`oldest_law`). `Merging` gives the rows of that run one after another, for those who need no
//! run (`specs/Merging.antt`): each time the row of the least key, until no row is left (`given_law`). Of runs of
//! stored rows there is one such run (`merged_law`), and one run is made into itself (`one_run_law`). All of this rests
//! on the laws of `MergeEngine` alone. Runs are merged in pairs, and these again, so that each row takes part in about
//! as many comparisons as the number of runs can be halved.
//!
//! Rows come from a `RowSource`, which has a list of them and may refuse after it, and go from place to place
//! (`RowPlace`), and no run is made on the way. A source is asked for a row only where that has to be known, so its
//! refusal comes no earlier. A `RowSlot` of `pm_row_slots` is such a place: a row that lies in bytes stays there, and
//! is copied only where it is taken, or combined by an engine that needs both rows.
#![tactic(auto)]

mod drops;
mod laws;
mod merge;
mod merging;
mod place;
mod source;

pub use laws::{given_law, merged_law, oldest_law, one_run_law, replaces_law};
pub use merge::merge_runs;
pub use merging::{Merging, Stopped};
pub use place::RowPlace;
pub use source::{MemRows, RowSource};
