//! The name of an origin.

ghost use Rattle.std.specs.Prelude.{◌≡◌, IfOk};
ghost use Rattle.pm_create.specs.Creator.{actor_of};
ghost use Rattle.pm_model_folder.specs.Changes.{origin_name};

use pm_base::Txt;
use std::alloc::{AllocError, Global};
use uuid::Uuid;

/// The name of the origin that an actor of a session makes, in the folder `snapshot`.
pub fn origin_name(alloc: Global, session: [u8; 16], actor: u32) -> Result<Txt, AllocError>
    ensures { IfOk result (λ name. name ≡ origin_name (actor_of session actor)) }
{
    let session = Uuid::from_bytes(session);
    let text = format!(in alloc; "ORIGIN-{session}-{actor}")?;
    Txt::from_str(alloc, text.as_str())
}
