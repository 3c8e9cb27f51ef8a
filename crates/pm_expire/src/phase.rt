//! How far an expiry has come.

use pm_announce::{Announced, Announcer};
use pm_expire_paths::Dropping;
use pm_read_expiry::ExpiryReader;
use pm_read_whole::WholeReader;
use pm_remove::Remover;

/// Views that are read one after another: what was announced, the paths of those that were read, and the snapshot of
/// the one that is being read.
#[derive(Drop)]
pub struct Views {
    pub announced: Announced,
    pub dropping: Dropping,
    pub id: u64,
}

/// How far the expiry has come: the next call is one of the reader of what it needs to know; or of its announcer; or of
/// the reader of a snapshot's whole view; or removes a path; or it is done, with the first snapshot that is kept and
/// the last, both 0 where the table has none; or it ended before that.
#[derive(Drop)]
pub enum Phase {
    Read {
        reader: ExpiryReader,
    },
    Announce {
        announcer: Announcer,
    },
    View {
        views: Views,
        reader: WholeReader,
    },
    Remove {
        first: u64,
        last: u64,
        remover: Remover,
    },
    Done {
        first: u64,
        last: u64,
    },
    Over,
}
