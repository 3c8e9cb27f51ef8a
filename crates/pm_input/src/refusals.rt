//! How a command refuses an input that wasn't read.

ghost use Rattle.std.specs.Prelude.{◌≡◌, IfOk};
ghost use Rattle.pm_input.specs.Refusals.{refusal_of};

use crate::limits::LIMITS;
use crate::lines::InputFault;
use pm_values::{Refusal, Txt};
use std::alloc::{AllocError, Global};

/// The refusal of an input that wasn't read within the limits of every command.
pub fn refusal_of(alloc: Global, fault: InputFault) -> Result<Refusal, AllocError>
    ensures { IfOk result (λ e. e ≡ refusal_of fault) }
{
    match fault {
        InputFault::Memory => Err(AllocError),
        InputFault::Read => Ok(Refusal::SourceFault),
        InputFault::Limit(which) => Ok(Refusal::Limit {
            which: Txt::from_str(alloc, which.text())?,
            number: which.number(&LIMITS) as u64,
        }),
    }
}
