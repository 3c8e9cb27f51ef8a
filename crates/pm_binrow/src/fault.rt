//! Why bytes aren't read as a row.

ghost use Rattle.std.specs.Prelude.{◌≡◌};
ghost use Rattle.pm_binrow.specs.declared.fault.BinFault.TheVariants.{Memory};

use std::alloc::{AllocError, AllocFailed};

/// A fault of the bytes of a row.
#[derive(Clone, Copy)]
pub enum BinFault {
    /// Memory ran out.
    Memory,
    /// The bytes are no row of these columns.
    Bad,
}

impl From<AllocError> for BinFault {
    ghost from_gives = { λ _ e. e ≡ Memory };

    /// Memory ran out.
    fn from(_e: AllocError) -> BinFault {
        BinFault::Memory
    }
}

impl<T: Drop> From<AllocFailed<T>> for BinFault {
    ghost from_gives = { λ _ e. e ≡ Memory };

    /// Memory ran out.
    fn from(_e: AllocFailed<T>) -> BinFault {
        BinFault::Memory
    }
}
