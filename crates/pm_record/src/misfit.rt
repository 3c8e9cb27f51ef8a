//! Why a datum is no record.

ghost use Rattle.std.specs.Prelude.{◌≡◌};
ghost use Rattle.pm_record.specs.declared.misfit.Misfit.TheVariants.{Memory};

use pm_base::Txt;
use std::alloc::{AllocError, AllocFailed};

/// Why a datum isn't read as a record.
#[derive(Drop)]
pub enum Misfit {
    /// Out of memory.
    Memory,
    /// It is no such record. The file is damaged at the offset of its block.
    Bad,
    /// It has a text that isn't supported; what that is of, and the text.
    Unsupported { what: Txt, text: Txt },
}

impl From<AllocError> for Misfit {
    ghost from_gives = { λ _ e. e ≡ Memory };

    /// Out of memory.
    fn from(_: AllocError) -> Misfit {
        Misfit::Memory
    }
}

impl<T: Drop> From<AllocFailed<T>> for Misfit {
    ghost from_gives = { λ _ e. e ≡ Memory };

    /// Out of memory.
    fn from(_: AllocFailed<T>) -> Misfit {
        Misfit::Memory
    }
}
