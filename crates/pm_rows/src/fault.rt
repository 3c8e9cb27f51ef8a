//! Why a row line was refused.

ghost use Rattle.std.specs.Prelude.{◌≡◌};
ghost use Rattle.pm_rows.specs.declared.fault.RowFault.TheVariants.{Memory};

use pm_values::Why;
use std::alloc::{AllocError, AllocFailed};

/// Why a line is no row: there was no memory left, or its first fault and the index of the column,
/// from 0. A fault of the whole line (`Json`, `Array`, `Kind`, `Count`) has index 0.
#[derive(Drop)]
pub enum RowFault {
    Memory,
    Bad(Why, usize),
}

impl From<AllocError> for RowFault {
    ghost from_gives = { λ _ e. e ≡ Memory };

    fn from(_e: AllocError) -> RowFault {
        RowFault::Memory
    }
}

impl<T: Drop> From<AllocFailed<T>> for RowFault {
    ghost from_gives = { λ _ e. e ≡ Memory };

    fn from(_e: AllocFailed<T>) -> RowFault {
        RowFault::Memory
    }
}
