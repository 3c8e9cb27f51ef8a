//! Names in one text.

ghost use Rattle.std.specs.Prelude.{◌≡◌, IfOk, string_bytes};
ghost use Rattle.pm_options.specs.Written.{list_text};

use pm_values::Txt;
use std::alloc::{AllocError, Global};

/// The names with a comma between each two.
pub fn print_names(alloc: Global, names: &[Txt]) -> Result<String, AllocError>
    ensures { IfOk result (λ s. string_bytes s ≡ list_text names.now) }
{
    let Some((first, rest)) = names.split_first() else {
        return Ok(String::new(alloc));
    };
    let mut text = String::from_str(alloc, first.as_str())?;
    for name in rest {
        text.push_str(",")?;
        text.push_str(name.as_str())?;
    }
    Ok(text)
}
