//! Of each folder the last file that this process read or put in it. While it stands there the folder isn't empty, and
//! one look shows that; to read the folder takes far longer where it has many names.

use crate::host::Host;
use crate::look::kind_at;
use crate::paths::folder_of;
use pm_store::StoreFail;
use std::alloc::{AllocError, Global};
use std::collections::BTreeMap;

/// Such files by their folders, each by where it stands in the file system.
pub(crate) struct Standing {
    files: BTreeMap<String, String>,
}

impl Drop for Standing {
    fn drop(self) {
        let Standing { files } = self;
    }
}

impl Standing {
    /// No file.
    pub(crate) fn new(alloc: Global) -> Standing {
        Standing {
            files: BTreeMap::new(alloc),
        }
    }

    /// Keeps a file, in the place of an older one of its folder, which may have gone.
    pub(crate) fn keep(&mut self, alloc: Global, file: &str) -> Result<(), AllocError> {
        let folder = String::from_str(alloc, folder_of(file))?;
        let file = String::from_str(alloc, file)?;
        self.files.insert(folder, file)?;
        Ok(())
    }

    /// Whether nothing stands in a folder that is there.
    pub(crate) fn is_empty<H: Host>(&self, host: &mut H, folder: &str) -> Result<bool, StoreFail> {
        if let Some(file) = self.files.get(folder) {
            if kind_at(host, file.as_str())?.is_some() {
                return Ok(false);
            }
        }
        Ok(host.is_empty(folder)?)
    }
}
