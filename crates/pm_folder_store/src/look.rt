//! What stands at a path in the file system. Nothing is followed: a link is neither a file nor a folder.

use crate::host::{Found, Host, HostError, Kind};
use crate::paths::folder_of;
use pm_base::Blob;
use pm_store::StoreFail;
use std::alloc::Global;

/// How often a file is looked at anew that others replace meanwhile.
const LOOKS: u32 = 1000;

/// For how many bytes there is room at the first read of a file. Most files of a table have no more.
const FIRST_ROOM: usize = 2048;

/// What stands at a path, or nothing.
pub(crate) fn kind_at<H: Host>(host: &mut H, path: &str) -> Result<Option<Kind>, StoreFail> {
    match host.look(path) {
        Ok(found) => Ok(Some(found.kind)),
        Err(e) if is_absent(e) => Ok(None),
        Err(e) => Err(StoreFail::from(e)),
    }
}

/// Whether an error says that there is no such file, or that the file system has no such name.
pub(crate) fn is_absent(error: HostError) -> bool {
    matches!(
        error,
        HostError::NotFound | HostError::NotADirectory | HostError::InvalidFilename
    )
}

/// The bytes of a file, or nothing where there is none. A folder is no file.
pub(crate) fn read_at<H: Host>(
    alloc: Global,
    host: &mut H,
    path: &str,
) -> Result<Option<Blob>, StoreFail> {
    let Some(mut file) = open_file(host, path)? else {
        return Ok(None);
    };
    let mut bytes = Vec::new(alloc);
    let read = read_rest(host, &mut file, &mut bytes);
    host.close(file);
    match read {
        Ok(()) => Ok(Some(Blob::new(bytes))),
        Err(e) => Err(StoreFail::from(e)),
    }
}

/// Reads the rest of a file, a short one by two reads: the second finds its end.
fn read_rest<H: Host>(
    host: &mut H,
    file: &mut H::File,
    into: &mut Vec<u8>,
) -> Result<(), HostError> {
    into.reserve(FIRST_ROOM)?;
    host.read(file, into)
}

/// A file, opened for reading; none where there is none. No call refuses a link as it opens, so what was opened is
/// compared with what a look found before.
pub(crate) fn open_file<H: Host>(host: &mut H, path: &str) -> Result<Option<H::File>, StoreFail> {
    for _ in 0..LOOKS {
        let looked = match host.look(path) {
            Ok(looked) => looked,
            Err(e) if is_absent(e) => return Ok(None),
            Err(e) => return Err(StoreFail::from(e)),
        };
        match looked.kind {
            Kind::File => {}
            Kind::Folder => return Ok(None),
            Kind::Other => return Err(StoreFail::Failed),
        }
        if let Some(file) = open_looked(host, path, looked)? {
            return Ok(Some(file));
        }
    }
    Err(StoreFail::Failed)
}

/// A file, opened for reading, where it is the one that was looked at.
fn open_looked<H: Host>(
    host: &mut H,
    path: &str,
    looked: Found,
) -> Result<Option<H::File>, HostError> {
    let file = match host.open(path) {
        Ok(file) => file,
        Err(e) if is_absent(e) => return Ok(None),
        Err(e) => return Err(e),
    };
    match host.look_at(&file) {
        Ok(opened) if is_same(looked, opened) => Ok(Some(file)),
        Ok(_) => {
            host.close(file);
            Ok(None)
        }
        Err(e) => {
            host.close(file);
            Err(e)
        }
    }
}

/// Whether two looks found the same thing.
pub(crate) fn is_same(one: Found, other: Found) -> bool {
    one.device == other.device && one.inode == other.inode
}

/// Makes a folder, and answers whether it wasn't there. Anything else that stands there is a fault.
pub(crate) fn make_folder<H: Host>(host: &mut H, folder: &str) -> Result<bool, StoreFail> {
    match host.create_dir(folder) {
        Ok(()) => Ok(true),
        Err(HostError::AlreadyExists) => match kind_at(host, folder)? {
            Some(Kind::Folder) => Ok(false),
            _ => Err(StoreFail::Failed),
        },
        Err(e) => Err(StoreFail::from(e)),
    }
}

/// A folder that is there can be listed, or can be made.
pub(crate) fn judge_root<H: Host>(
    alloc: Global,
    host: &mut H,
    root: &str,
) -> Result<(), StoreFail> {
    match host.look_through(root) {
        Ok(found) if matches!(found.kind, Kind::Folder) => {
            let folder = host.open(format!(in alloc; "{root}/.")?.as_str())?;
            host.close(folder);
            Ok(())
        }
        Ok(_) => Err(StoreFail::Failed),
        Err(HostError::NotFound) => can_be_made(host, root),
        Err(e) => Err(StoreFail::from(e)),
    }
}

/// A folder that isn't there can be made where its parent is a folder. What stands there, as a link to nothing, is a
/// fault.
fn can_be_made<H: Host>(host: &mut H, root: &str) -> Result<(), StoreFail> {
    if root.is_empty() || kind_at(host, root)?.is_some() {
        return Err(StoreFail::Failed);
    }
    match host.look_through(folder_of(root))?.kind {
        Kind::Folder => Ok(()),
        Kind::File | Kind::Other => Err(StoreFail::Failed),
    }
}
