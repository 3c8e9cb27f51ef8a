//! The names of the consumers whose files a listing has.

ghost use Rattle.std.specs.Cmp.Lexicographic.{slice_cmp};
ghost use Rattle.std.specs.List.{filter_map};
ghost use Rattle.std.specs.List.Sorted.{IsStrictlySortedBy};
ghost use Rattle.std.specs.Ordering.{nat_cmp};
ghost use Rattle.std.specs.Prelude.{◌≡◌, IfOk};
ghost use Rattle.pm_consumers.specs.Names.{name_in, AreNames};

use pm_base::Txt;
use std::alloc::{AllocError, Global};

/// The names of the consumers whose files are listed, rising as the files do.
pub(crate) fn names_of(alloc: Global, files: &[Txt]) -> Result<Vec<Txt>, AllocError>
    requires { IsStrictlySortedBy (slice_cmp nat_cmp) files.now }
    ensures { IfOk result (λ names. AreNames files.now names.items) }
{
    let names = listed_names(alloc, files)?;
    Ok(names)
}

/// These names.
fn listed_names(alloc: Global, files: &[Txt]) -> Result<Vec<Txt>, AllocError>
    ensures { IfOk result (λ names. names.items ≡ filter_map name_in files.now) }
{
    let mut names = Vec::new(alloc);
    for file in files {
        if let Some(name) = name_in(alloc, file)? {
            names.push(name)?;
        }
    }
    Ok(names)
}

/// The name of the consumer whose file this is, by the file's name.
fn name_in(alloc: Global, file: &Txt) -> Result<Option<Txt>, AllocError>
    ensures { IfOk result (λ name. name ≡ name_in file.now) }
{
    match file.as_str().strip_prefix("consumer-") {
        Some(name) => Ok(Some(Txt::from_str(alloc, name)?)),
        None => Ok(None),
    }
}
