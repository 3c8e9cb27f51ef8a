//! What a commit is for.

use pm_manifest::Entry;
use pm_values::Group;
use pm_write::Batch;

/// What a commit is for: rows are appended, or runs are compacted, or a fence is raised; of fences none is made yet.
#[derive(Drop)]
pub enum Intent {
    Append { batch: Batch },
    Compact { plan: Plan },
    Fence { fence: i64 },
}

/// What a compaction puts in the place of what: entries alone, since its files are created before any try.
#[derive(Drop)]
pub struct Plan {
    /// The groups whose runs it takes, rising, each with whether all of its runs go into one at the top level.
    pub groups: Vec<(Group, bool)>,
    /// The files of the runs that it took, as they were live in its view: by group, and newest run first.
    pub removed: Vec<Entry>,
    /// The data files that it made.
    pub added: Vec<Entry>,
    /// The changelog files that it made.
    pub changes: Vec<Entry>,
    /// Where it was asked in full, the appends of its view.
    pub full: Option<u64>,
}
