//! The remover.

ghost use Rattle.std.specs.Prelude.{◌≡◌, ◌↔◌, IsTrue};
ghost use Rattle.pm_remove.specs.Remover.{remove_next};
ghost use Rattle.pm_remove.specs.declared.phase.Phase.TheVariants as phases;

use crate::machine::remove_next;
use crate::phase::Phase;
use pm_base::Txt;
use pm_machine::Running;
use std::collections::VecDeque;

/// Removes paths in their order, a call of the store a step.
pub type Remover = Running<Phase>;

/// The remover of these paths, in this order.
pub fn new_remover(paths: VecDeque<Txt>) -> Remover
    ensures { result ≡ remove_next paths.items }
{
    Running::new(remove_next(paths))
}

/// Whether all paths were removed.
pub fn are_removed(remover: &Remover) -> bool
    ensures { IsTrue result ↔ (remover.now ≡ phases.Removed) }
{
    matches!(remover.phase(), Phase::Removed)
}
