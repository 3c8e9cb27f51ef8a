//! The flat model of a table: its history, and what a list of rows merges to.
//!
//! `specs/History.antt` has the history, a schema and the entries that commits made, when it is that of a table with a
//! schema, and when it goes on as a later one; `specs/Taken.antt` which rows an engine takes; `specs/ColumnValue.antt`
//! what a column is worth over all rows of a key, by engine and by function; `specs/Merged.antt` which keys show, the
//! merged table of a schema and the text of a scan; `specs/Merge.antt` rows and their keys. They know nothing of
//! files, snapshots or retries.
#![tactic(auto)]

mod columns;
mod laws;
mod merge;
mod verdict;

pub use columns::{index_of, indexes_of, primary_of};
pub use laws::merged_table_law;
pub use merge::key_of;
pub use verdict::Verdict;
