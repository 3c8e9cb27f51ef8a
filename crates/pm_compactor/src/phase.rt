//! How far a compaction has come.

use pm_commit::Committer;
use pm_group_files::GroupReader;
use pm_plan::{Asking, Planned};
use pm_put::CommitFile;
use pm_read_table::ViewReader;
use std::collections::VecDeque;

/// How far a compaction has come: the next call is one of the newest view; or lists the manifests, since there is a
/// choice; or reads a file of a chosen group; or creates a file that was made, before those after it; or is one of the
/// commit. Or there was no choice; or the compaction ended before that.
#[derive(Drop)]
pub enum Phase {
    View {
        asking: Asking,
        reader: ViewReader,
    },
    Names {
        planned: Planned,
    },
    Files {
        planned: Planned,
        files: GroupReader,
    },
    Create {
        committer: Committer,
        next: CommitFile,
        rest: VecDeque<CommitFile>,
    },
    Commit {
        committer: Committer,
    },
    Nothing,
    Over,
}
