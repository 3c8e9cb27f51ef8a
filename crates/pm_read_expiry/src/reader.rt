//! The reader of what an expiry needs to know.

ghost use Rattle.std.specs.Prelude.{◌≡◌, ◌↔◌, IfOk, IsTrue};
ghost use Rattle.pm_snapshots.specs.declared.phase.Phase.TheVariants as listers;
ghost use Rattle.pm_read_expiry.specs.Found.{IsAsking, IsInOrder};
ghost use Rattle.pm_read_expiry.specs.Reader.{IsReady};
ghost use Rattle.pm_read_expiry.specs.declared.phase.Phase.TheVariants as phases;

use crate::asking::{Asking, Found};
use crate::phase::Phase;
use pm_machine::{LawfulPhase, Running};
use pm_snapshots::list_of;
use std::alloc::{AllocError, Global};

/// Reads what an expiry needs to know, a call of the store a step.
pub type ExpiryReader = Running<Phase>;

impl LawfulPhase for Phase {
    fn laws() {}
}

/// A reader for the table whose schema was just read.
pub fn expiry_reader(alloc: Global, asking: Asking) -> Result<ExpiryReader, AllocError>
    requires { IsAsking asking }
    ensures { IfOk result (λ reader. reader ≡ phases.Snapshots asking (listers.List asking.schema)) }
{
    match asking.schema.copy(alloc) {
        Ok(schema) => Ok(Running::new(Phase::Snapshots {
            asking,
            lister: list_of(schema),
        })),
        Err(error) => {
            drop(asking);
            Err(error)
        }
    }
}

/// Whether all is known.
pub fn is_found(reader: &ExpiryReader) -> bool
    ensures { IsTrue result ↔ IsReady reader.now }
{
    matches!(reader.phase(), Phase::Ready { .. })
}

/// What was found, once all is known.
pub fn into_found(reader: ExpiryReader) -> Found
    requires { IsReady reader }
    ensures found { reader ≡ phases.Ready result }
    ensures in_order { IsInOrder result }
{
    match reader.into_phase() {
        Phase::Ready { found } => found,
        _ => unreachable!(),
    }
}
