//! Files of rows with their bytes.

use pm_base::{Blob, Txt};
use pm_values::FileMeta;

/// A file of rows: what is known of it, and its bytes.
#[derive(Drop)]
pub struct RunFile {
    pub meta: FileMeta,
    pub bytes: Blob,
}

/// A run with the bytes of its files.
pub struct RunBytes {
    /// The path of the folder of its group.
    pub folder: Txt,
    pub level: u32,
    pub files: Vec<(FileMeta, Blob)>,
}

impl Drop for RunBytes {
    fn drop(self) {
        let RunBytes {
            folder,
            level,
            files,
        } = self;
    }
}
