//! The rows of a snapshot's changelog files, merged by key, and the text that they make.
//!
//! A frame has the rows of all changelog files of its snapshot by rising key. A row's group depends on its key, so no
//! two groups' files have a key in common, and the two rows of a key stand behind each other in one file. Of one file
//! the rows are printed from where they lie. Of more the rows are packed, as `pm_packed` has it, sorted by key without
//! changing the order of rows of one key, and printed from there. `specs/Merged.antt` says what the text is; that it is
//! the snapshot's frame is `parts_law` of `pm_model_changelog`.
#![tactic(auto)]

mod laws;
mod lines;
mod merge;

pub use laws::own_keys_law;
pub use merge::{empty_frame, frame_text, pack_rows};
