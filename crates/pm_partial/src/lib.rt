//! Partial updates: each column outside the key is updated by itself, or together with those of its sequence group.
//!
//! `PartialUpdate` is a merge engine whose meaning is that of its schema. A column in no group has its latest value
//! that isn't null of the rows that add. The columns of a group have what its leading row leaves: of the rows with a
//! leading value the last of those with the greatest. A stored row inserts, and has in each column what the column is
//! worth; so it bears the leading value of each group, also of one whose leading row retracts, and without a leading
//! value the columns of a group are null.
#![tactic(auto)]

mod partial_update;
mod update;

pub use partial_update::PartialUpdate;
