//! Files that others reach only through files of other folders, and the folders that they stand in. They are synced
//! before the next change elsewhere, and not before.

use crate::host::Host;
use crate::look::open_file;
use crate::syncing::Synced;
use pm_store::StoreFail;
use std::alloc::{AllocError, Global};
use std::collections::BTreeSet;

/// Files that this process wrote or found, and folders that it changed or found a file in, by where they stand in the
/// file system.
pub(crate) struct Owed {
    files: BTreeSet<String>,
    folders: BTreeSet<String>,
}

impl Drop for Owed {
    fn drop(self) {
        let Owed { files, folders } = self;
    }
}

impl Owed {
    /// Nothing.
    pub(crate) fn new(alloc: Global) -> Owed {
        Owed {
            files: BTreeSet::new(alloc),
            folders: BTreeSet::new(alloc),
        }
    }

    /// Owes a file's bytes, where it is there then.
    pub(crate) fn add_file(&mut self, alloc: Global, file: &str) -> Result<(), AllocError> {
        self.files.insert(String::from_str(alloc, file)?)?;
        Ok(())
    }

    /// Owes a folder's names.
    pub(crate) fn add_folder(&mut self, alloc: Global, folder: &str) -> Result<(), AllocError> {
        self.folders.insert(String::from_str(alloc, folder)?)?;
        Ok(())
    }

    /// Has the bytes of all these files on the disk, then the names in all these folders, and owes none of them any
    /// more. Where one can't be synced, all stay owed. The files come in a row, since a file system that has one of
    /// them on the disk may have what it noted of the others there, too.
    pub(crate) fn settle<H: Host>(
        &mut self,
        alloc: Global,
        synced: &mut Synced,
        host: &mut H,
        root: &str,
    ) -> Result<(), StoreFail> {
        for file in &self.files {
            sync_file(host, file.as_str())?;
        }
        for folder in &self.folders {
            synced.settle(alloc, host, root, folder.as_str())?;
        }
        self.files.clear();
        self.folders.clear();
        Ok(())
    }
}

/// Has a file's bytes on the disk, where there is one.
fn sync_file<H: Host>(host: &mut H, path: &str) -> Result<(), StoreFail> {
    let Some(file) = open_file(host, path)? else {
        return Ok(());
    };
    let synced = host.sync(&file);
    host.close(file);
    Ok(synced?)
}
