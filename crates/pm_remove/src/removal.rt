//! What is removed from a store.

use pm_base::Txt;
use std::collections::VecDeque;
use std::marker::Model;

/// Paths that are being removed: the next of them, and those after it.
#[derive(Drop)]
pub struct Removal {
    pub(crate) next: Txt,
    pub(crate) rest: VecDeque<Txt>,
}

impl Model for Removal {
    ghost use Rattle.pm_remove.specs.Removal.{removal_of, RemovalView};

    ghost Value = { RemovalView };

    ghost view = { λ r. removal_of r.next r.rest.items };
}
