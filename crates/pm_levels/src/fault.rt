//! Why files have no runs.

ghost use Rattle.std.specs.Prelude.{◌≡◌};
ghost use Rattle.pm_levels.specs.declared.fault.LevelFault.TheVariants.{Memory};

use pm_values::FileMeta;
use std::alloc::{AllocError, AllocFailed};

/// Why files have no runs.
#[derive(Drop)]
pub enum LevelFault {
    /// There was no memory left.
    Memory,
    /// Two files of one level above 0 share a key range: the one with the greater least key, or with the greater name
    /// where these are equal. Of several such files the first, by level, then by least key, then by name.
    Overlap(FileMeta),
}

impl From<AllocError> for LevelFault {
    ghost from_gives = { λ _ e. e ≡ Memory };

    fn from(_e: AllocError) -> LevelFault {
        LevelFault::Memory
    }
}

impl<T: Drop> From<AllocFailed<T>> for LevelFault {
    ghost from_gives = { λ _ e. e ≡ Memory };

    fn from(_e: AllocFailed<T>) -> LevelFault {
        LevelFault::Memory
    }
}
