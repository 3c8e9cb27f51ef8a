//! The search for an earlier commit of the same user.

ghost use Rattle.std.specs.Prelude.{◌≡◌, ◌<◌, length};
ghost use Rattle.pm_read_table.specs.Reader.{most};
ghost use Rattle.pm_commit.specs.Search.{older_ids, seen_in, seen_of};

use crate::found::Found;
use pm_made::Author;
use pm_snapshot::Snapshot;
use std::collections::VecDeque;
use std::marker::Model;

/// What a snapshot says of a commit: it is another user's; or the same user's, with a smaller identifier or not.
#[derive(Clone, Copy)]
pub enum Seen {
    Other,
    Below,
    Reached,
}

/// What a snapshot says.
pub(crate) fn seen_of(author: &Author, snapshot: &Snapshot) -> Seen
    ensures { result ≡ seen_of author.now snapshot.now }
{
    if snapshot.user.as_bytes() != author.user.as_bytes() {
        Seen::Other
    } else if snapshot.ident < author.identifier {
        Seen::Below
    } else {
        Seen::Reached
    }
}

/// What the newest snapshot says; the origin is nobody's.
pub(crate) fn seen_in(author: &Author, snapshot: &Option<Snapshot>) -> Seen
    ensures { result ≡ seen_in author.now snapshot.now }
{
    match snapshot {
        Some(snapshot) => seen_of(author, snapshot),
        None => Seen::Other,
    }
}

/// The snapshots below the newest, falling, of all that were listed, rising.
pub(crate) fn older_ids(listed: Vec<u64>) -> VecDeque<u64>
    ensures older { result.items ≡ older_ids listed.items }
    ensures few { length result.items < most }
{
    let mut falling = listed;
    falling.reverse();
    let mut older = VecDeque::from(falling);
    let _ = older.pop_front();
    let _ = older.len();
    older
}

/// A search in older snapshots: what the try found, the next of them, and those after it.
#[derive(Drop)]
pub struct Searching {
    pub(crate) found: Found,
    pub(crate) id: u64,
    pub(crate) left: VecDeque<u64>,
}

impl Model for Searching {
    ghost use Rattle.pm_commit.specs.Search.{searching_of, SearchingView};

    ghost Value = { SearchingView };

    ghost view = { λ q. searching_of q.found q.id q.left.items };
}
