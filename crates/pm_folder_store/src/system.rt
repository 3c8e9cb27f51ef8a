//! The operating system as a host. It is believed without a case: each function is one call of the kit, `make` two and
//! `names` as many as a folder has rooms full of names, and decides nothing.

use crate::host::{Found, Host, HostError, Kind};
use crate::names::push_names;
use pm_base::Txt;
use std::alloc::Global;
use std::fs::{File, Metadata, TryLockError};
use std::io::{ErrorKind, Read, Write};
use std::os::unix::fs::MetadataExt;
use std::rt::{Clock, Files};
use std::time::{Duration, UNIX_EPOCH};
use std::{fs, io};

/// How many bytes of a folder are read at once. There is room in them for any name.
const ROOM: usize = 8192;

/// The operating system that a runtime has.
pub struct System<R: Files<File = File> + AllocGlobal + Clock + Clone + Drop> {
    rt: R,
}

impl<R: Files<File = File> + AllocGlobal + Clock + Clone + Drop> Drop for System<R> {
    fn drop(self) {
        let System { rt } = self;
    }
}

impl<R: Files<File = File> + AllocGlobal + Clock + Clone + Drop> System<R> {
    /// The operating system of a runtime.
    pub fn new(rt: R) -> System<R> {
        System { rt }
    }
}

impl From<io::Error> for HostError {
    fn from(error: io::Error) -> HostError {
        match error.kind() {
            ErrorKind::NotFound => HostError::NotFound,
            ErrorKind::NotADirectory => HostError::NotADirectory,
            ErrorKind::InvalidFilename => HostError::InvalidFilename,
            ErrorKind::AlreadyExists => HostError::AlreadyExists,
            ErrorKind::PermissionDenied => HostError::PermissionDenied,
            ErrorKind::InvalidInput => HostError::InvalidInput,
            ErrorKind::ReadOnlyFilesystem => HostError::ReadOnlyFilesystem,
            ErrorKind::OutOfMemory => HostError::OutOfMemory,
            _ => HostError::Other,
        }
    }
}

impl<R: Files<File = File> + AllocGlobal + Clock + Clone + Drop> Host for System<R> {
    type File = File;

    fn look(&mut self, path: &str) -> Result<Found, HostError> {
        Ok(found(&self.rt.symlink_metadata(path)?))
    }

    fn look_through(&mut self, path: &str) -> Result<Found, HostError> {
        Ok(found(&self.rt.metadata(path)?))
    }

    fn look_at(&mut self, file: &File) -> Result<Found, HostError> {
        Ok(found(&file.metadata()?))
    }

    fn names(&mut self, alloc: Global, folder: &str) -> Result<Vec<Txt>, HostError> {
        let place = format!(in alloc; "{folder}/")?;
        let mut dir = self.rt.open_dir(place.as_str())?;
        let mut room = [0; ROOM];
        let mut names = Vec::new(alloc);
        for _ in 0..u32::MAX {
            let size = dir.read(&mut room)?;
            if size == 0 {
                return Ok(names);
            }
            push_names(alloc, &mut names, &room[..size])?;
        }
        Err(HostError::Other)
    }

    fn is_empty(&mut self, folder: &str) -> Result<bool, HostError> {
        Ok(fs::read_dir(&self.rt, folder)?.next().is_none())
    }

    fn open(&mut self, path: &str) -> Result<File, HostError> {
        Ok(File::open(&self.rt, path)?)
    }

    /// It is cut to nothing, so that ext4 has its bytes on their way to the disk once it is closed.
    fn make(&mut self, path: &str) -> Result<File, HostError> {
        let file = File::create_new(&self.rt, path)?;
        let _ = file.set_len(0);
        Ok(file)
    }

    fn read(&mut self, file: &mut File, into: &mut Vec<u8>) -> Result<(), HostError> {
        file.read_to_end(into)?;
        Ok(())
    }

    fn write(&mut self, file: &mut File, bytes: &[u8]) -> Result<(), HostError> {
        Ok(file.write_all(bytes)?)
    }

    fn copy_mode(&mut self, from: &str, file: &File) -> Result<(), HostError> {
        let looked = self.rt.symlink_metadata(from)?;
        Ok(file.set_permissions(looked.permissions())?)
    }

    fn set_changed(&mut self, file: &File, time: Duration) -> Result<(), HostError> {
        match UNIX_EPOCH.checked_add(time) {
            Some(time) => Ok(file.set_modified(time)?),
            None => Err(HostError::Other),
        }
    }

    fn sync(&mut self, file: &File) -> Result<(), HostError> {
        Ok(file.sync_all()?)
    }

    fn try_lock(&mut self, file: &File, is_alone: bool) -> Result<bool, HostError> {
        let locked = if is_alone {
            file.try_lock()
        } else {
            file.try_lock_shared()
        };
        match locked {
            Ok(()) => Ok(true),
            Err(TryLockError::WouldBlock) => Ok(false),
            Err(TryLockError::Error(e)) => Err(HostError::from(e)),
        }
    }

    fn close(&mut self, file: File) {
        drop(file);
    }

    fn rename(&mut self, from: &str, to: &str) -> Result<(), HostError> {
        Ok(self.rt.rename(from, to)?)
    }

    fn remove_file(&mut self, path: &str) -> Result<(), HostError> {
        Ok(self.rt.remove_file(path)?)
    }

    fn create_dir(&mut self, path: &str) -> Result<(), HostError> {
        Ok(self.rt.create_dir(path)?)
    }

    fn remove_dir(&mut self, path: &str) -> Result<(), HostError> {
        Ok(self.rt.remove_dir(path)?)
    }

    fn since_1970(&mut self) -> Result<Duration, HostError> {
        Ok(self.rt.since_1970()?)
    }

    fn monotonic(&mut self) -> Result<Duration, HostError> {
        Ok(self.rt.monotonic()?)
    }
}

/// What the kit's look found. A time before 1970 counts as 1970.
fn found(looked: &Metadata) -> Found {
    let kind = if looked.is_file() {
        Kind::File
    } else if looked.is_dir() {
        Kind::Folder
    } else {
        Kind::Other
    };
    Found {
        kind,
        device: looked.dev(),
        inode: looked.ino(),
        size: looked.len(),
        changed: since_1970(looked.mtime(), looked.mtime_nsec()),
        touched: since_1970(looked.ctime(), looked.ctime_nsec()),
    }
}

/// A time of the kit's look.
fn since_1970(secs: i64, nanos: i64) -> Duration {
    let nanos = u64::try_from(nanos).unwrap_or(0);
    match u64::try_from(secs) {
        Ok(secs) => Duration::from_secs(secs).saturating_add(Duration::from_nanos(nanos)),
        Err(_) => Duration::ZERO,
    }
}
