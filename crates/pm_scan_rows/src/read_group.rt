//! What was read of a group.

use crate::stored_run::StoredRun;
use pm_base::Blob;

/// What was read of a group: the runs of which all rows were, the oldest first; and of older runs the bytes of their
/// files as they are, none of them judged, the newest run's first.
#[derive(Drop)]
pub struct ReadGroup {
    pub runs: Vec<StoredRun>,
    pub kept: Vec<Blob>,
}
