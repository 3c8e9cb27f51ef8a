//! Why a reader has stopped.

ghost use Rattle.std.specs.Prelude.{◌≡◌};
ghost use Rattle.pm_avro_file.specs.Reader.{stop_fault};
ghost use Rattle.pm_avro_file.specs.declared.stop.Stop.TheVariants.{Memory};

use pm_avro_schema::AvroFault;
use std::alloc::AllocError;

/// A fault that ends the reading: memory ran out, or no block begins at the offset.
#[derive(Clone, Copy)]
pub(crate) enum Stop {
    Memory,
    Bad(usize),
}

impl Stop {
    /// The fault that is answered, each time anew.
    pub(crate) fn fault(self) -> AvroFault
        ensures { result ≡ stop_fault self }
    {
        match self {
            Stop::Memory => AvroFault::Memory,
            Stop::Bad(offset) => AvroFault::Bad(offset),
        }
    }
}

impl From<AllocError> for Stop {
    ghost from_gives = { λ _ e. e ≡ Memory };

    /// Memory ran out.
    fn from(_: AllocError) -> Stop {
        Stop::Memory
    }
}
