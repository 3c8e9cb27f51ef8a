//! The mark of an actor in the names of its files.

ghost use Rattle.std.specs.Prelude.{◌≡◌, ◌↔◌, IfOk, IsTrue};
ghost use Rattle.std.specs.Str.Iter.{HasSubslice};
ghost use Rattle.pm_commit.specs.Marks.{mark_of, FindsUsed};

use pm_base::Txt;
use pm_paths::manifest_path;
use pm_values::Names;
use std::alloc::{AllocError, Global};
use uuid::Uuid;

/// The path of the first name that has the mark of a maker of names, which is the first in the order of bytes where the
/// names rise.
pub fn used_path(alloc: Global, maker: &Names, names: &[Txt]) -> Result<Option<Txt>, AllocError>
    ensures { IfOk result (FindsUsed maker.now names.now) }
{
    let mark = mark_of(alloc, maker)?;
    for name in names {
        if has_mark(name, &mark) {
            return Ok(Some(manifest_path(alloc, name)?));
        }
    }
    Ok(None)
}

/// The mark of a maker of names: its session and its actor, between hyphens.
fn mark_of(alloc: Global, maker: &Names) -> Result<Txt, AllocError>
    ensures { IfOk result (λ mark. mark ≡ mark_of maker.now) }
{
    let session = Uuid::from_bytes(maker.session());
    let actor = maker.actor();
    let text = format!(in alloc; "-{session}-{actor}-")?;
    Txt::from_str(alloc, text.as_str())
}

/// Whether a name contains a mark.
fn has_mark(name: &Txt, mark: &Txt) -> bool
    ensures { IsTrue result ↔ HasSubslice name.now mark.now }
{
    has_text(name.as_str(), mark.as_str())
}

/// Whether a text contains another.
fn has_text(text: &str, part: &str) -> bool
    ensures { IsTrue result ↔ HasSubslice text.now part.now }
{
    text.contains(part)
}
