//! The reader of the latest snapshot's id.

ghost use Rattle.std.specs.Prelude.{◌≡◌, ◌↔◌, IsTrue, Option, Some, None};
ghost use Rattle.pm_read_latest.specs.Reader.{IsReady};
ghost use Rattle.pm_read_latest.specs.declared.phase.Phase.TheVariants as phases;

use crate::phase::Phase;
use pm_machine::{LawfulPhase, Running};

/// Lists the snapshots of a table, and has the id of the latest: one call of the store.
pub type LatestReader = Running<Phase>;

impl LawfulPhase for Phase {
    fn laws() {}
}

/// A reader that has made no call yet.
pub fn latest_reader() -> LatestReader
    ensures { result ≡ phases.List }
{
    Running::new(Phase::List)
}

/// Whether the id is known.
pub fn is_latest_ready(reader: &LatestReader) -> bool
    ensures { IsTrue result ↔ IsReady reader.now }
{
    matches!(reader.phase(), Phase::Ready { .. })
}

/// The id of the latest snapshot, 0 where no later one than the origin was listed, once it is known.
pub fn into_latest(reader: LatestReader) -> u64
    requires { IsReady reader }
    ensures { reader ≡ phases.Ready result }
{
    match reader.into_phase() {
        Phase::Ready { latest } => latest,
        _ => unreachable!(),
    }
}
