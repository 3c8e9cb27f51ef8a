//! Names that were on the disk after this process listed their folder. What stands under one then needs no sync, so
//! they are kept of those folders alone in which no file is replaced or made anew.

use crate::paths::{is_made_once, last_part, store_folder_of};
use pm_base::Txt;
use std::alloc::{AllocError, Global};
use std::collections::{BTreeMap, BTreeSet};
use std::iter::FromIterator;

/// The names of the last listing of each such folder.
pub(crate) struct Shown {
    names: BTreeMap<String, BTreeSet<String>>,
}

impl Drop for Shown {
    fn drop(self) {
        let Shown { names } = self;
    }
}

impl Shown {
    /// No name.
    pub(crate) fn new(alloc: Global) -> Shown {
        Shown {
            names: BTreeMap::new(alloc),
        }
    }

    /// Keeps the names that a listing of a folder of the store showed, and that are on the disk now.
    pub(crate) fn keep(
        &mut self,
        alloc: Global,
        folder: &str,
        names: &[Txt],
    ) -> Result<(), AllocError> {
        if !is_made_once(folder) {
            return Ok(());
        }
        let mut kept = Vec::with_capacity(alloc, names.len())?;
        for name in names {
            kept.push(String::from_str(alloc, name.as_str())?)?;
        }
        let kept = BTreeSet::from_iter(alloc, kept)?;
        self.names.insert(String::from_str(alloc, folder)?, kept)?;
        Ok(())
    }

    /// Whether a path has such a name.
    pub(crate) fn has(&self, path: &str) -> bool {
        match self.names.get(store_folder_of(path)) {
            Some(names) => names.contains(last_part(path)),
            None => false,
        }
    }
}
