//! The doing of what is done to the files of a case.

use crate::running::run_on;
use pm_cases_lines::{Act, Command, Deed};
use pm_store::{FileStore, MemStore};
use std::alloc::{AllocError, Global};

/// Does what is to be done to files, and prints nothing of it.
pub fn apply_deed(alloc: Global, files: &mut MemStore, deed: &Deed) -> Result<(), AllocError> {
    match deed {
        Deed::Put { path, bytes } => put_file(alloc, files, path.as_str(), bytes.as_slice()),
        Deed::Take { path } => take_file(alloc, files, path.as_str()),
        Deed::Run(command) => run_silently(alloc, files, command),
    }
}

/// Does what others do before a call.
pub fn act_before(
    alloc: Global,
    files: &mut MemStore,
    acts: &[Act],
    call: u64,
) -> Result<(), AllocError> {
    for act in acts.iter() {
        if act.call == call {
            apply_deed(alloc, files, &act.deed)?;
        }
    }
    Ok(())
}

/// Runs a command, whatever it prints.
fn run_silently(alloc: Global, files: &mut MemStore, command: &Command) -> Result<(), AllocError> {
    run_on(alloc, command, files)?;
    Ok(())
}

/// Puts a file in place, or replaces it.
pub fn put_file(
    alloc: Global,
    files: &mut MemStore,
    path: &str,
    bytes: &[u8],
) -> Result<(), AllocError> {
    take_file(alloc, files, path)?;
    match files.create(alloc, path, bytes) {
        Ok(_) => Ok(()),
        Err(_) => Err(AllocError),
    }
}

/// Takes a file away where it is there.
fn take_file(alloc: Global, files: &mut MemStore, path: &str) -> Result<(), AllocError> {
    match files.remove(alloc, path) {
        Ok(_) => Ok(()),
        Err(_) => Err(AllocError),
    }
}
