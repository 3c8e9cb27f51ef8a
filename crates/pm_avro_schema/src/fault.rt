//! Why a text isn't read as a type, or bytes as a datum.

ghost use Rattle.std.specs.Prelude.{◌≡◌};
ghost use Rattle.pm_avro_schema.specs.declared.fault.AvroFault.TheVariants.{Memory};

use pm_base::Txt;
use std::alloc::{AllocError, AllocFailed};

/// A fault of a text or of bytes.
#[derive(Drop)]
pub enum AvroFault {
    /// Memory ran out.
    Memory,
    /// What Avro has and this crate hasn't: which part, and the text that stands there.
    Unsupported { what: Txt, text: Txt },
    /// What isn't Avro, with its offset in bytes.
    Bad(usize),
}

impl From<AllocError> for AvroFault {
    ghost from_gives = { λ _ e. e ≡ Memory };

    /// Memory ran out.
    fn from(_: AllocError) -> AvroFault {
        AvroFault::Memory
    }
}

impl<T: Drop> From<AllocFailed<T>> for AvroFault {
    ghost from_gives = { λ _ e. e ≡ Memory };

    /// Memory ran out.
    fn from(_: AllocFailed<T>) -> AvroFault {
        AvroFault::Memory
    }
}
