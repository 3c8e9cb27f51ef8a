//! The paths of consumers and of floors.

ghost use Rattle.std.specs.Prelude.{◌≡◌, IfOk};
ghost use Rattle.pm_model_folder.specs.Paths.{consumer_path, floor_path};

use pm_base::Txt;
use std::alloc::{AllocError, Global};

/// The path of the consumer of a name.
pub fn consumer_path(alloc: Global, name: &Txt) -> Result<Txt, AllocError>
    ensures { IfOk result (λ path. path ≡ consumer_path name.now) }
{
    let name = name.as_str();
    let text = format!(in alloc; "consumer/consumer-{name}")?;
    Txt::from_str(alloc, text.as_str())
}

/// The path of the floor with a number.
pub fn floor_path(alloc: Global, number: u64) -> Result<Txt, AllocError>
    ensures { IfOk result (λ path. path ≡ floor_path number) }
{
    let text = format!(in alloc; "floor/floor-{number}")?;
    Txt::from_str(alloc, text.as_str())
}
