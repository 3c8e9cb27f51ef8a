//! The files that are being written, in a folder of their own. Each is locked as long as it is open.

ghost use Rattle.std.specs.Prelude.{◌≡◌, ◌↔◌, IfOk, IsTrue, decimal, string_bytes};
ghost use Rattle.pm_folder_store.specs.Temporary.{IsTemporary};

use crate::host::{Host, HostError, Kind};
use crate::lock::kept;
use crate::look::{kind_at, make_folder, open_file};
use crate::paths::place_in;
use pm_store::StoreFail;
use std::alloc::{AllocError, Global};

/// How many files may be written at once.
const TEMPORARY_NAMES: u32 = 100_000;

/// A file that is being written, and whether it was renamed to its place, so that it isn't in the folder any more.
#[derive(Drop)]
pub(crate) struct Begun<F: Drop> {
    pub(crate) file: F,
    pub(crate) path: String,
    pub(crate) is_placed: bool,
}

/// A new file in the folder, locked as long as it is open. `is_swept` says that this process had the folder ready
/// before. It is called under the lock of the table.
pub(crate) fn begin_file<H: Host>(
    alloc: Global,
    host: &mut H,
    folder: &str,
    is_swept: bool,
) -> Result<Begun<H::File>, StoreFail> {
    if !is_swept || !is_folder(host, folder)? {
        make_ready(alloc, host, folder)?;
    }
    for n in 0..TEMPORARY_NAMES {
        let path = format!(in alloc; "{folder}/{n}")?;
        match host.make(path.as_str()) {
            Ok(file) => return lock_file(host, file, path),
            Err(HostError::AlreadyExists) => {}
            Err(e) => return Err(StoreFail::from(e)),
        }
    }
    Err(StoreFail::Failed)
}

/// Whether a folder is there.
fn is_folder<H: Host>(host: &mut H, folder: &str) -> Result<bool, StoreFail> {
    Ok(matches!(kind_at(host, folder)?, Some(Kind::Folder)))
}

/// Makes the folder. Where it is there, the files that killed writers left in it are taken away: nobody holds a lock on
/// them.
fn make_ready<H: Host>(alloc: Global, host: &mut H, folder: &str) -> Result<(), StoreFail> {
    if !make_folder(host, folder)? {
        sweep(alloc, host, folder)?;
    }
    Ok(())
}

/// A file that was made, once it is locked.
fn lock_file<H: Host>(
    host: &mut H,
    file: H::File,
    path: String,
) -> Result<Begun<H::File>, StoreFail> {
    let given = host.try_lock(&file, true);
    Ok(Begun {
        file: kept(host, file, given)?,
        path,
        is_placed: false,
    })
}

/// Takes away the files in the folder that nobody holds a lock on. Where anything else stands in it, nothing is taken.
fn sweep<H: Host>(alloc: Global, host: &mut H, folder: &str) -> Result<(), StoreFail> {
    let begun = begun_files(alloc, host, folder)?;
    for path in &begun {
        take_left(host, path.as_str())?;
    }
    Ok(())
}

/// The files in the folder, by their paths. Anything that isn't a file with a name that `begin_file` gives is a fault.
fn begun_files<H: Host>(
    alloc: Global,
    host: &mut H,
    folder: &str,
) -> Result<Vec<String>, StoreFail> {
    let mut begun = Vec::new(alloc);
    for name in host.names(alloc, folder)? {
        if !is_temporary(alloc, name.as_str())? {
            return Err(StoreFail::Failed);
        }
        let path = place_in(alloc, folder, name.as_str())?;
        match kind_at(host, path.as_str())? {
            None => {}
            Some(Kind::File) => begun.push(path)?,
            Some(Kind::Folder | Kind::Other) => return Err(StoreFail::Failed),
        }
    }
    Ok(begun)
}

/// Takes a file away, unless it can't be opened or somebody holds a lock on it.
fn take_left<H: Host>(host: &mut H, path: &str) -> Result<(), StoreFail> {
    let Ok(Some(file)) = open_file(host, path) else {
        return Ok(());
    };
    let taken = match host.try_lock(&file, true) {
        Ok(true) => host.remove_file(path),
        _ => Ok(()),
    };
    host.close(file);
    match taken {
        Ok(()) | Err(HostError::NotFound) => Ok(()),
        Err(e) => Err(StoreFail::from(e)),
    }
}

/// Whether `begin_file` gives a name: a number as it is printed.
fn is_temporary(alloc: Global, name: &str) -> Result<bool, AllocError>
    ensures { IfOk result (λ is. IsTrue is ↔ IsTemporary name.now) }
{
    match name.parse::<u32>() {
        Ok(n) if n < TEMPORARY_NAMES => {
            let printed = print_number(alloc, n)?;
            Ok(printed.as_str() == name)
        }
        _ => Ok(false),
    }
}

/// A number as it is printed.
fn print_number(alloc: Global, n: u32) -> Result<String, AllocError>
    ensures { IfOk result (λ s. string_bytes s ≡ decimal n) }
{
    format!(in alloc; "{n}")
}
