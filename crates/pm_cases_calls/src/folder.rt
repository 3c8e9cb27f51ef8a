//! Two stores on one real folder.

use pm_folder_store::{FolderStore, System};
use std::alloc::Global;

/// A store on a real folder.
pub type RealStore = FolderStore<System<HostRuntime>>;

/// Two stores on one folder, each as a process of its own has it.
pub struct TwoStores {
    pub one: RealStore,
    pub other: RealStore,
}

impl Drop for TwoStores {
    fn drop(self) {
        let TwoStores { one, other } = self;
    }
}

impl TwoStores {
    /// Both stores, of which none has made a call; none where the folder can't be opened.
    pub fn open(rt: &HostRuntime, alloc: Global, folder: &str) -> Option<TwoStores> {
        let one = open(rt, alloc, folder)?;
        match open(rt, alloc, folder) {
            Some(other) => Some(TwoStores { one, other }),
            None => {
                drop(one);
                None
            }
        }
    }
}

/// A store on a folder; none where it can't be opened.
fn open(rt: &HostRuntime, alloc: Global, folder: &str) -> Option<RealStore> {
    match rt.clone() {
        Ok(runtime) => FolderStore::open(alloc, System::new(runtime), folder).ok(),
        Err(_) => None,
    }
}
