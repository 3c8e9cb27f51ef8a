//! The putter.

ghost use Rattle.std.specs.Prelude.{◌≡◌};
ghost use Rattle.pm_put.specs.Putter.{create_next};

use crate::machine::create_next;
use crate::phase::Phase;
use crate::putting::{CommitFile, Publishing};
use pm_machine::Running;
use std::collections::VecDeque;

/// What a step of a putter reached: it goes on; or the last file was published; or that was lost to others.
#[derive(Clone, Copy)]
pub enum PutStep {
    More,
    Published,
    Lost,
}

/// Creates files in their order, and then publishes one, a call of the store a step.
pub type Putter = Running<Phase>;

/// The putter of these files, in this order, and of what is published after them.
pub fn new_putter(files: VecDeque<CommitFile>, publishing: Publishing) -> Putter
    ensures { result ≡ create_next publishing files.items }
{
    Running::new(create_next(publishing, files))
}
