//! The store on a folder, over the files of a host.
//!
//! What it asks of its host, and when, no clause tells. What is proved is that it is safe and ends, that a failure
//! counts as a fault, which verdict answers which condition (`specs/Disk.antt`), where a path of the store stands,
//! which is below the folder or nowhere (`specs/Paths.antt`), which folders have files that others name, which have
//! files that are made once, and which are sealed (`specs/Folders.antt`), which names temporary files have
//! (`specs/Temporary.antt`), and which names the bytes of a folder are (`specs/Names.antt`). A double of the host shows
//! the rest in cases; of `System`, the operating system itself, nothing is shown.
#![tactic(auto)]

mod disk;
mod folder;
mod host;
mod listing;
mod lock;
mod look;
mod names;
mod owed;
mod paths;
mod seal;
mod shown;
mod standing;
mod syncing;
mod system;
mod temporary;

pub use folder::FolderStore;
pub use host::{Found, Host, HostError, Kind};
pub use system::System;
