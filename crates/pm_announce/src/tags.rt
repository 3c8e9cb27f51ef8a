//! The tags that a listing names: none is built, so what it finds is refused.

ghost use Rattle.std.specs.Prelude.{◌≡◌, ◌⊎◌, IfOk};
ghost use Rattle.pm_values.specs.declared.refusal.Refusal.TheVariants as refusals;
ghost use Rattle.pm_announce.specs.Tags.{first_tag, tag_in, unbuilt_tag};

use pm_base::Txt;
use pm_values::Refusal;
use std::alloc::{AllocError, Global};

/// The name of the first tag whose file is listed, if there is one.
pub(crate) fn first_tag(alloc: Global, files: &[Txt]) -> Result<Option<Txt>, AllocError>
    ensures { IfOk result (λ name. name ≡ first_tag files.now) }
{
    for file in files {
        if let Some(name) = tag_in(alloc, file)? {
            return Ok(Some(name));
        }
    }
    Ok(None)
}

/// The name of the tag whose file this is, by the file's name.
fn tag_in(alloc: Global, file: &Txt) -> Result<Option<Txt>, AllocError>
    ensures { IfOk result (λ name. name ≡ tag_in file.now) }
{
    match file.as_str().strip_prefix("tag-") {
        Some(name) => Ok(Some(Txt::from_str(alloc, name)?)),
        None => Ok(None),
    }
}

/// The refusal that names a tag.
pub(crate) fn unbuilt_tag(alloc: Global, name: Txt) -> Refusal
    ensures { (result ≡ refusals.Memory) ⊎ (result ≡ unbuilt_tag name) }
{
    match Txt::from_str(alloc, "tag") {
        Ok(what) => Refusal::Unsupported { what, text: name },
        Err(_) => Refusal::Memory,
    }
}
