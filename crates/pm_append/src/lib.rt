//! What a commit that appends rows means, once it is published.
//!
//! `pm_made` makes what a commit puts into the folder, whatever it is for, and says what the snapshot and the live
//! files are then. What is an append's own is here: the entries that add its files are such as a manifest can have,
//! each group that the batch has rows of has one run more, at level 0, and the others stay. So each group's live files
//! stand for the batch's rows too, and the snapshot is the one that appends them (`specs/Commit.antt`,
//! `specs/Snapshot.antt`). Where the table passes its input on, the changelog files of the groups hold the batch's rows
//! by key, and so the change of the snapshot.
#![tactic(auto)]

mod laws;

pub use laws::append_law;
