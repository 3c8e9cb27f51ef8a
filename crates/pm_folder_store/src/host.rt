//! What the store asks of an operating system. Each function is one call of it, or a few that decide nothing, so that a
//! double can stand in which records the calls and fails those that it is told to.

ghost use Rattle.std.specs.Prelude.{◌≡◌, ◌↔◌};
ghost use Rattle.pm_folder_store.specs.declared.host.HostError.TheVariants as errors;
ghost use Rattle.pm_store.specs.declared.store.StoreFail.TheVariants as fails;

use pm_base::Txt;
use pm_store::StoreFail;
use std::alloc::{AllocError, AllocFailed, Global};
use std::time::Duration;

/// What stands at a path, or is open: a file, a folder, or anything else, as a link that wasn't followed.
#[derive(Clone, Copy)]
pub enum Kind {
    File,
    Folder,
    Other,
}

/// What a look found. Two looks that found equal device and inode numbers found the same thing. `size` is how many
/// bytes a file has, and says nothing of what is none. `changed` is the time since 1970 at which its content changed
/// last, of a folder its names, unless it was set since. `touched` is the time at which anything about it changed last,
/// that time too; it can't be set.
#[derive(Clone, Copy)]
pub struct Found {
    pub kind: Kind,
    pub device: u64,
    pub inode: u64,
    pub size: u64,
    pub changed: Duration,
    pub touched: Duration,
}

/// Why a call of a host failed. It is a small value, so that no function has much to drop where it comes.
#[derive(Clone, Copy)]
pub enum HostError {
    /// Nothing stands at the path.
    NotFound,
    /// A file stands on the path's way.
    NotADirectory,
    /// No file can have the path.
    InvalidFilename,
    /// Something stands where a thing is to be made.
    AlreadyExists,
    /// The user may not do that.
    PermissionDenied,
    /// That can't be done to such a thing.
    InvalidInput,
    /// Nothing there can be changed.
    ReadOnlyFilesystem,
    /// Memory ran out.
    OutOfMemory,
    /// Anything else, which is a fault.
    Other,
}

impl From<AllocError> for HostError {
    fn from(_error: AllocError) -> HostError {
        HostError::OutOfMemory
    }
}

impl<T: Drop> From<AllocFailed<T>> for HostError {
    fn from(_error: AllocFailed<T>) -> HostError {
        HostError::OutOfMemory
    }
}

impl From<HostError> for StoreFail {
    ghost from_gives = { λ e fail. (fail ≡ fails.Memory) ↔ (e ≡ errors.OutOfMemory) };

    fn from(error: HostError) -> StoreFail {
        match error {
            HostError::OutOfMemory => StoreFail::Memory,
            _ => StoreFail::Failed,
        }
    }
}

/// An operating system's files and clocks.
pub trait Host {
    /// A file or a folder that is open.
    type File: Drop;

    /// What stands at a path. A link at its end isn't followed.
    fn look(&mut self, path: &str) -> Result<Found, HostError>;

    /// What a path leads to. A link at its end is followed.
    fn look_through(&mut self, path: &str) -> Result<Found, HostError>;

    /// What is open.
    fn look_at(&mut self, file: &Self::File) -> Result<Found, HostError>;

    /// The names in a folder, in any order. For one that isn't UTF-8 U+FFFD stands.
    fn names(&mut self, alloc: Global, folder: &str) -> Result<Vec<Txt>, HostError>;

    /// Whether nothing stands in a folder.
    fn is_empty(&mut self, folder: &str) -> Result<bool, HostError>;

    /// Opens a file or a folder for reading.
    fn open(&mut self, path: &str) -> Result<Self::File, HostError>;

    /// Makes a file where nothing stands, and opens it for writing.
    fn make(&mut self, path: &str) -> Result<Self::File, HostError>;

    /// Reads the rest of a file.
    fn read(&mut self, file: &mut Self::File, into: &mut Vec<u8>) -> Result<(), HostError>;

    /// Writes all bytes to a file.
    fn write(&mut self, file: &mut Self::File, bytes: &[u8]) -> Result<(), HostError>;

    /// Gives a file the mode of the one at a path.
    fn copy_mode(&mut self, from: &str, file: &Self::File) -> Result<(), HostError>;

    /// Sets the time at which the content of what is open changed last.
    fn set_changed(&mut self, file: &Self::File, time: Duration) -> Result<(), HostError>;

    /// Has what is open on the disk: a file's bytes, a folder's names.
    fn sync(&mut self, file: &Self::File) -> Result<(), HostError>;

    /// Asks for the lock of what is open, alone or with others who share it, and answers whether it was given.
    fn try_lock(&mut self, file: &Self::File, is_alone: bool) -> Result<bool, HostError>;

    /// Closes what is open, which ends its lock.
    fn close(&mut self, file: Self::File);

    /// Gives a file another path; one that stands there is replaced.
    fn rename(&mut self, from: &str, to: &str) -> Result<(), HostError>;

    /// Takes a file away.
    fn remove_file(&mut self, path: &str) -> Result<(), HostError>;

    /// Makes a folder.
    fn create_dir(&mut self, path: &str) -> Result<(), HostError>;

    /// Takes an empty folder away.
    fn remove_dir(&mut self, path: &str) -> Result<(), HostError>;

    /// The time since 1970.
    fn since_1970(&mut self) -> Result<Duration, HostError>;

    /// The time since some moment, which never goes back.
    fn monotonic(&mut self) -> Result<Duration, HostError>;
}
