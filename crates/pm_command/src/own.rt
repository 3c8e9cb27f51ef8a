//! The actor of a command, as a user and as a maker of names.

ghost use Rattle.std.specs.Prelude.{◌≡◌, All, IfOk, length, ◌<◌};
ghost use Rattle.pm_snapshot.specs.Names.{MayName};
ghost use Rattle.pm_values.specs.Names.{naming};
ghost use Rattle.pm_command.specs.Outside.{actor, own_user};

use crate::start::Start;
use pm_base::Txt;
use pm_values::Names;
use std::alloc::{AllocError, Global};
use uuid::Uuid;

/// Its name as a user: its session and its number.
pub fn own_user(alloc: Global, start: &Start) -> Result<Txt, AllocError>
    ensures { IfOk result (λ name. name ≡ own_user (actor start.now)) }
{
    let session = Uuid::from_bytes(start.session);
    let actor = start.number;
    let text = format!(in alloc; "{session}-{actor}")?;
    Txt::from_str(alloc, text.as_str())
}

/// The names that it gives.
pub fn own_names(start: &Start) -> Names
    ensures names { result ≡ naming start.now.session start.now.number 0 }
    ensures may { MayName result }
{
    bytes_fit(&start.session);
    Names::new(start.session, start.number, 0)
}

/// Each byte has eight bits, which no clause says of an array: this walk reads them, and has no effect.
fn bytes_fit(session: &[u8; 16])
    ensures { (length session.now ≡ 16) × All (λ b. b < 256) session.now }
{
    for i in 0..16 {
        let _ = session[i];
    }
}
