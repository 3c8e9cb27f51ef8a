//! The names that a folder is read as. The kit's own reading of one makes a path of each, which takes memory twice.

ghost use Rattle.std.specs.Prelude.{◌≡◌, ◌++◌, OnOk};
ghost use Rattle.pm_folder_store.specs.Names.{is_own, name_of, names_in, readable};

use pm_base::Txt;
use std::alloc::{AllocError, Global};
use std::str;

/// What stands for a name that isn't UTF-8.
const UNREADABLE: &str = "\u{FFFD}";

/// Puts to others the names that these bytes are, but that of the folder itself and of the one around it.
pub(crate) fn push_names(
    alloc: Global,
    names: &mut Vec<Txt>,
    bytes: &[u8],
) -> Result<(), AllocError>
    ensures { OnOk result (names.new.items ≡ names.old.items ++ names_in bytes.now) }
{
    for name in bytes.split(|byte| *byte == 0) {
        push_name(alloc, names, name)?;
    }
    Ok(())
}

/// Puts a name to others, if it is one.
fn push_name(alloc: Global, names: &mut Vec<Txt>, name: &[u8]) -> Result<(), AllocError>
    ensures { OnOk result (names.new.items ≡ names.old.items ++ name_of name.now) }
{
    if name.is_empty() || is_own(name) {
        return Ok(());
    }
    names.push(Txt::from_str(alloc, readable(name))?)?;
    Ok(())
}

/// Whether a name is that of the folder itself, or of the one around it.
fn is_own(name: &[u8]) -> bool
    ensures { result ≡ is_own name.now }
{
    name == b".".as_slice() || name == b"..".as_slice()
}

/// A name as a text.
fn readable(name: &[u8]) -> &str
    ensures { result.now ≡ readable name.now }
{
    match str::from_utf8(name) {
        Ok(name) => name,
        Err(_) => UNREADABLE,
    }
}

/// Whether a name stands for one that isn't UTF-8. A file may have that name itself, too.
pub(crate) fn is_unreadable(name: &str) -> bool {
    name == UNREADABLE
}
