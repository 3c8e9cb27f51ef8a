//! Files that are read one after another.

use crate::collected::Collected;
use crate::job::Job;
use std::collections::VecDeque;
use std::marker::Model;

/// The snapshot's id, what is collected of its files, the next file, and those after it.
#[derive(Drop)]
pub struct Reading {
    pub(crate) id: u64,
    pub(crate) collected: Collected,
    pub(crate) next: Job,
    pub(crate) rest: VecDeque<Job>,
}

impl Model for Reading {
    ghost use Rattle.pm_group_files.specs.Reading.{reading_of, ReadingView};

    ghost Value = { ReadingView };

    ghost view = { λ r. reading_of r.id r.collected r.next r.rest.items };
}
