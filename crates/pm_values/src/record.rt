//! Rows with what is kept beside them.

use crate::key::Key;
use crate::kind::Kind;
use crate::row::Row;

/// A row with its key, its kind and the sequence number that orders the rows of its group.
#[derive(Drop)]
pub struct Stamped {
    pub key: Key,
    pub seq: u64,
    pub kind: Kind,
    pub row: Row,
}

/// A line of a changelog: what happened to a key.
pub struct Change {
    pub key: Key,
    pub kind: Kind,
    pub row: Row,
}

impl Drop for Change {
    fn drop(self) {
        let Change { key, kind, row } = self;
    }
}
