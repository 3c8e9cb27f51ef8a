//! What a commit begins with, and what it makes.

use pm_base::{Blob, Txt};
use pm_manifest::{Entry, ManifestMeta};
use pm_put::CommitFile;
use pm_snapshot::Snapshot;

/// The table as a commit finds it.
pub struct Newest {
    /// The newest snapshot's id, 0 for the origin.
    pub id: u64,
    /// The newest snapshot, none for the origin.
    pub snapshot: Option<Snapshot>,
    /// The manifests of its base list, and then those of its delta list.
    pub manifests: Vec<ManifestMeta>,
    /// The entries of its live files, in their order.
    pub live: Vec<Entry>,
}

impl Drop for Newest {
    fn drop(self) {
        let Newest {
            id,
            snapshot,
            manifests,
            live,
        } = self;
    }
}

/// Who commits, and when.
pub struct Author {
    /// Who commits.
    pub user: Txt,
    /// The identifier that this user gives the commit.
    pub identifier: i64,
    /// The newest snapshot that was read at the first try.
    pub base: u64,
    /// The moment, in milliseconds from 1970-01-01.
    pub time: i64,
}

impl Drop for Author {
    fn drop(self) {
        let Author {
            user,
            identifier,
            base,
            time,
        } = self;
    }
}

/// What a commit puts into the folder.
#[derive(Drop)]
pub struct Made {
    /// The new snapshot's id.
    pub id: u64,
    /// Its files, in the order in which they are created.
    pub files: Vec<CommitFile>,
    /// The text of its snapshot, which is published after all of them.
    pub text: Blob,
}
