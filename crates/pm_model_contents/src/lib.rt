//! What the files that a snapshot names mean.
//!
//! `specs/Lists.antt` says which entries the manifests of a snapshot's lists have, `specs/Runs.antt` which runs the
//! live files of a group are, and `specs/Named.antt` which paths a snapshot names. All of it is said of any map from
//! paths to bytes: of a table's folder, or of what a reader has read so far. A snapshot has one meaning at most
//! (`one_contents_law`, `one_runs_law`), and keeps it where its files stay (`kept_law`).
//!
//! `data_path` gives the path of a group's file. `group_levels` puts the live files into groups, and makes runs of each
//! group's files (`specs/Groups.antt`). It moves each file once, in about n log g comparisons of groups. What it asks
//! of the live files holds of those that entries of the table were folded into (`live_law`, `folder_law`).
#![tactic(auto)]

mod groups;
mod laws;

pub use groups::{data_path, group_levels};
pub use laws::{folder_law, kept_law, live_law, one_contents_law, one_runs_law, same_law};
