//! The files of a store, each by its length and its checksum.

use crate::store::CaseStore;
use std::alloc::{AllocError, Global};

/// A line for each file, rising by the bytes of the paths: the path, how many bytes it has, and their checksum.
pub fn files_text(alloc: Global, store: &mut CaseStore) -> Result<String, AllocError> {
    let mut text = String::new(alloc);
    for path in store.paths(alloc)? {
        if let Some(bytes) = store.find(alloc, path.as_str())? {
            let (len, sum) = (bytes.as_bytes().len(), checksum(bytes.as_bytes()));
            let line = format!(in alloc; "{} {len} {sum}\n", path.as_str())?;
            text.push_str(line.as_str())?;
        }
    }
    Ok(text)
}

/// How many files there are, and the checksum of the lines for them.
pub fn sum_text(alloc: Global, store: &mut CaseStore) -> Result<String, AllocError> {
    let text = files_text(alloc, store)?;
    let count = text.lines().count();
    let sum = checksum(text.as_bytes());
    format!(in alloc; "{count} files {sum}\n")
}

/// The names that stand right in a folder, a line each.
pub fn list_text(alloc: Global, store: &mut CaseStore, folder: &str) -> Result<String, AllocError> {
    let mut text = String::new(alloc);
    for name in store.list_names(alloc, folder)? {
        text.push_str(name.as_str())?;
        text.push_str("\n")?;
    }
    Ok(text)
}

/// The checksum of bytes: from 0 on it takes each byte as `31 * sum + byte`, modulo 2^32.
pub fn checksum(bytes: &[u8]) -> u32 {
    bytes.iter().fold(0, |sum: u32, byte| {
        sum.wrapping_mul(31).wrapping_add(u32::from(*byte))
    })
}
