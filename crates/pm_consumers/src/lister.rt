//! The lister of consumers.

ghost use Rattle.std.specs.Prelude.{◌≡◌, ◌↔◌, IsTrue};
ghost use Rattle.pm_consumers.specs.Lister.{consumers_in, IsDone};
ghost use Rattle.pm_consumers.specs.declared.phase.Phase.TheVariants as phases;

use crate::phase::Phase;
use pm_consumer_files::NamedConsumer;
use pm_machine::{LawfulPhase, Running};

/// Lists the consumers of a table, a call of the store a step.
pub type Lister = Running<Phase>;

impl LawfulPhase for Phase {
    fn laws() {}
}

/// A lister that has made no call yet.
pub fn consumer_lister() -> Lister
    ensures { result ≡ phases.List }
{
    Running::new(Phase::List)
}

/// Whether all files were read.
pub fn is_list_done(lister: &Lister) -> bool
    ensures { IsTrue result ↔ IsDone lister.now }
{
    match lister.phase() {
        Phase::Read { reading } => reading.next().is_none(),
        _ => false,
    }
}

/// The consumers whose files are there, rising by name, once all were read.
pub fn into_consumers(lister: Lister) -> Vec<NamedConsumer>
    requires { IsDone lister }
    ensures { result.items ≡ consumers_in lister }
{
    match lister.into_phase() {
        Phase::Read { reading } => reading.into_consumers(),
        _ => unreachable!(),
    }
}
