//! Why bytes aren't read as a snapshot or as a consumer.

ghost use Rattle.std.specs.Prelude.{◌≡◌};
ghost use Rattle.pm_snapshot.specs.declared.fault.SnapFault.TheVariants.{Memory};

use std::alloc::{AllocError, AllocFailed};

/// A fault of the bytes of a file.
#[derive(Drop)]
pub enum SnapFault {
    /// Memory ran out.
    Memory,
    /// The bytes aren't such a file.
    Bad,
}

impl From<AllocError> for SnapFault {
    ghost from_gives = { λ _ e. e ≡ Memory };

    fn from(_e: AllocError) -> SnapFault {
        SnapFault::Memory
    }
}

impl<T: Drop> From<AllocFailed<T>> for SnapFault {
    ghost from_gives = { λ _ e. e ≡ Memory };

    fn from(_e: AllocFailed<T>) -> SnapFault {
        SnapFault::Memory
    }
}
