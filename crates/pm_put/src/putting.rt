//! What is put into a store.

use pm_base::{Blob, Txt};
use std::collections::VecDeque;
use std::marker::Model;

/// A file that isn't in the store yet.
#[derive(Drop)]
pub struct CommitFile {
    pub path: Txt,
    pub bytes: Blob,
}

/// A file that is published, and the path that has to stand then.
#[derive(Drop)]
pub struct Publishing {
    pub after: Txt,
    pub path: Txt,
    pub bytes: Blob,
}

/// Files that are being created: what is published once all are there, the next of them, and those after it.
#[derive(Drop)]
pub struct Making {
    pub(crate) publishing: Publishing,
    pub(crate) next: CommitFile,
    pub(crate) rest: VecDeque<CommitFile>,
}

impl Model for Making {
    ghost use Rattle.pm_put.specs.Making.{making_of, MakingView};

    ghost Value = { MakingView };

    ghost view = { λ m. making_of m.publishing m.next m.rest.items };
}
