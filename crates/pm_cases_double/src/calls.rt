//! The calls of the double, each as one of an operating system.

use crate::parts::{Bytes, Held, Lock, Name, Owner, Thing};
use crate::steps::{Act, Step};
use crate::world::{World, there};
use pm_base::Txt;
use pm_folder_store::{Found, HostError, Kind};
use std::alloc::Global;
use std::time::Duration;

/// How many bytes a name has at most.
const LONGEST_NAME: usize = 255;

impl World {
    /// What stands at a path.
    pub(crate) fn look(&mut self, path: &str) -> Result<Found, HostError> {
        self.begin(Act::Look, path, "")?;
        let thing = self.thing(path)?;
        let found = self.found(thing)?;
        self.done();
        Ok(found)
    }

    /// What a path leads to.
    pub(crate) fn look_through(&mut self, path: &str) -> Result<Found, HostError> {
        self.begin(Act::Look, path, "")?;
        let thing = self.end(path)?;
        let found = self.found(thing)?;
        self.done();
        Ok(found)
    }

    /// What a handle has open.
    pub(crate) fn look_at(&mut self, handle: usize) -> Result<Found, HostError> {
        let thing = self.begin_at(Act::Look, handle)?;
        let found = self.found(thing)?;
        self.done();
        Ok(found)
    }

    /// The names in a folder, the last one first. One that begins with a backslash isn't UTF-8.
    pub(crate) fn names(&mut self, alloc: Global, folder: &str) -> Result<Vec<Txt>, HostError> {
        self.begin(Act::Names, folder, "")?;
        let thing = self.end(folder)?;
        let names = told_names(alloc, self.names_of(thing)?)?;
        self.done();
        Ok(names)
    }

    /// Whether nothing stands in a folder.
    pub(crate) fn is_empty(&mut self, folder: &str) -> Result<bool, HostError> {
        self.begin(Act::Names, folder, "")?;
        let thing = self.end(folder)?;
        let is_used = is_used(self.names_of(thing)?);
        self.done();
        Ok(!is_used)
    }

    /// Opens a file or a folder.
    pub(crate) fn open(&mut self, path: &str) -> Result<usize, HostError> {
        self.begin(Act::Open, path, "")?;
        let thing = self.end(path)?;
        let handle = self.hold(thing, path)?;
        self.done();
        Ok(handle)
    }

    /// Makes a file where nothing stands, and opens it.
    pub(crate) fn make(&mut self, path: &str) -> Result<usize, HostError> {
        self.begin(Act::Make, path, "")?;
        let bytes = Bytes {
            now: Vec::new(self.alloc),
            is_synced: false,
        };
        let file = self.stand(path, Thing::File(bytes))?;
        let handle = self.hold(file, path)?;
        self.done();
        Ok(handle)
    }

    /// Reads a file.
    pub(crate) fn read(&mut self, handle: usize, into: &mut Vec<u8>) -> Result<(), HostError> {
        let begun = self.begin_at(Act::Read, handle);
        let is_half = begun.is_err() && !self.plan.is_stopped;
        if begun.is_ok() || is_half {
            let file = self.held(handle)?.thing;
            let bytes = self.bytes(file)?;
            into.extend_from_slice(part(bytes, is_half))?;
        }
        begun?;
        self.done();
        Ok(())
    }

    /// Writes bytes to the end of a file.
    pub(crate) fn write(&mut self, handle: usize, bytes: &[u8]) -> Result<(), HostError> {
        let begun = self.begin_at(Act::Write, handle);
        let is_half = begun.is_err() && !self.plan.is_stopped;
        if begun.is_ok() || is_half {
            let file = self.held(handle)?.thing;
            self.append(file, part(bytes, is_half))?;
        }
        begun?;
        self.done();
        Ok(())
    }

    /// Gives a file the mode of another.
    pub(crate) fn copy_mode(&mut self, from: &str, handle: usize) -> Result<(), HostError> {
        let _thing = self.begin_at(Act::CopyMode, handle)?;
        let _from = self.thing(from)?;
        self.done();
        Ok(())
    }

    /// Sets when the content of what is open changed last.
    pub(crate) fn set_changed(&mut self, handle: usize, time: Duration) -> Result<(), HostError> {
        let thing = self.begin_at(Act::SetChanged, handle)?;
        let tick = self.tick();
        let Some(node) = self.nodes.get_mut(thing) else {
            return Err(HostError::NotFound);
        };
        node.changed = u64::try_from(time.as_micros()).unwrap_or(0);
        node.touched = tick;
        self.done();
        Ok(())
    }

    /// Has what is open on the disk.
    pub(crate) fn sync(&mut self, handle: usize) -> Result<(), HostError> {
        let thing = self.begin_at(Act::Sync, handle)?;
        self.settle(thing);
        self.done();
        Ok(())
    }

    /// Asks for a lock, and answers whether it was given. Who acts aside doesn't ask again: that is an error.
    pub(crate) fn try_lock(&mut self, handle: usize, is_alone: bool) -> Result<bool, HostError> {
        let act = if is_alone { Act::Lock } else { Act::Share };
        let thing = self.begin_at(act, handle)?;
        if self.is_barred(thing, handle, is_alone) {
            if self.is_aside {
                return Err(HostError::Other);
            }
            return Ok(false);
        }
        if let Some(Some(held)) = self.handles.get_mut(handle) {
            held.lock = if is_alone { Lock::Alone } else { Lock::Shared };
        }
        self.done();
        Ok(true)
    }

    /// Closes a handle, which ends its lock.
    pub(crate) fn close(&mut self, handle: usize) {
        if self.is_locked(handle) && !self.is_aside {
            let _ = self.note_end(handle);
        }
        if let Some(held) = self.handles.get_mut(handle) {
            *held = None;
        }
    }

    /// Gives a file another path.
    pub(crate) fn rename(&mut self, from: &str, to: &str) -> Result<(), HostError> {
        self.begin(Act::Rename, from, to)?;
        let old = self.spot(from)?;
        let new = self.spot(to)?;
        let file = there(old)?;
        self.fits(new.name)?;
        let (old_folder, new_folder) = (old.folder, new.folder);
        self.lead(new_folder, new.name, Some(file))?;
        self.lead(old_folder, old.name, None)?;
        self.done();
        Ok(())
    }

    /// Takes a file away.
    pub(crate) fn remove_file(&mut self, path: &str) -> Result<(), HostError> {
        self.begin(Act::RemoveFile, path, "")?;
        let spot = self.spot(path)?;
        if let Thing::Folder(_) = &self.node(there(spot)?)?.thing {
            return Err(HostError::Other);
        }
        self.lead(spot.folder, spot.name, None)?;
        self.done();
        Ok(())
    }

    /// Makes a folder.
    pub(crate) fn create_dir(&mut self, path: &str) -> Result<(), HostError> {
        self.begin(Act::CreateDir, path, "")?;
        let _folder = self.stand(path, Thing::Folder(Vec::new(self.alloc)))?;
        self.done();
        Ok(())
    }

    /// Takes an empty folder away.
    pub(crate) fn remove_dir(&mut self, path: &str) -> Result<(), HostError> {
        self.begin(Act::RemoveDir, path, "")?;
        let spot = self.spot(path)?;
        if is_used(self.names_of(there(spot)?)?) {
            return Err(HostError::Other);
        }
        self.lead(spot.folder, spot.name, None)?;
        self.done();
        Ok(())
    }

    /// The time since 1970, or since some moment.
    pub(crate) fn time(&mut self) -> Result<Duration, HostError> {
        self.begin(Act::Clock, "", "")?;
        Ok(Duration::from_micros(self.glance()))
    }

    /// What a look finds of a thing.
    fn found(&self, thing: usize) -> Result<Found, HostError> {
        let node = self.node(thing)?;
        let (kind, size) = match &node.thing {
            Thing::File(bytes) => (Kind::File, bytes.now.len()),
            Thing::Folder(_) => (Kind::Folder, 0),
            Thing::Link(_) => (Kind::Other, 0),
        };
        Ok(Found {
            kind,
            device: 1,
            inode: u64::try_from(thing).unwrap_or(0),
            size: u64::try_from(size).unwrap_or(u64::MAX),
            changed: Duration::from_micros(node.changed),
            touched: Duration::from_micros(node.touched),
        })
    }

    /// Puts a new thing at a path where nothing stands.
    fn stand(&mut self, path: &str, thing: Thing) -> Result<usize, HostError> {
        let spot = self.spot(path)?;
        if spot.thing.is_some() {
            drop(thing);
            return Err(HostError::AlreadyExists);
        }
        self.fits(spot.name)?;
        let number = self.add(thing, spot.folder)?;
        self.lead(spot.folder, spot.name, Some(number))?;
        Ok(number)
    }

    /// A name that is too long is an error.
    fn fits(&self, name: &str) -> Result<(), HostError> {
        if name.is_empty() || name.len() > LONGEST_NAME {
            return Err(HostError::InvalidFilename);
        }
        Ok(())
    }

    /// Opens a thing.
    fn hold(&mut self, thing: usize, path: &str) -> Result<usize, HostError> {
        let owner = if self.is_aside {
            Owner::Aside
        } else {
            Owner::Watched
        };
        self.hold_by(owner, thing, path, Lock::Free)
    }

    /// Opens a thing for somebody, with a lock.
    pub(crate) fn hold_by(
        &mut self,
        owner: Owner,
        thing: usize,
        path: &str,
        lock: Lock,
    ) -> Result<usize, HostError> {
        let handle = self.handles.len();
        let held = Held {
            owner,
            thing,
            path: String::from_str(self.alloc, path)?,
            lock,
        };
        self.handles.push(Some(held))?;
        Ok(handle)
    }

    /// What a handle has open.
    fn held(&self, handle: usize) -> Result<&Held, HostError> {
        match self.handles.get(handle) {
            Some(Some(held)) => Ok(held),
            _ => Err(HostError::InvalidInput),
        }
    }

    /// Counts a call on a handle, and answers what is open.
    fn begin_at(&mut self, act: Act, handle: usize) -> Result<usize, HostError> {
        let held = self.held(handle)?;
        let thing = held.thing;
        let path = String::from_str(self.alloc, held.path.as_str())?;
        self.begin(act, path.as_str(), "")?;
        Ok(thing)
    }

    /// The bytes of a file.
    pub(crate) fn bytes(&self, file: usize) -> Result<&[u8], HostError> {
        match &self.node(file)?.thing {
            Thing::File(bytes) => Ok(bytes.now.as_slice()),
            _ => Err(HostError::Other),
        }
    }

    /// Adds bytes to a file.
    fn append(&mut self, file: usize, more: &[u8]) -> Result<(), HostError> {
        let tick = self.tick();
        let Some(node) = self.nodes.get_mut(file) else {
            return Err(HostError::NotFound);
        };
        node.changed = tick;
        node.touched = tick;
        match &mut node.thing {
            Thing::File(bytes) => {
                bytes.is_synced = false;
                Ok(bytes.now.extend_from_slice(more)?)
            }
            _ => Err(HostError::Other),
        }
    }

    /// Whether another handle's lock bars one's own.
    fn is_barred(&self, thing: usize, own: usize, is_alone: bool) -> bool {
        for (handle, held) in self.handles.iter().enumerate() {
            if handle != own && bars(held, thing, is_alone) {
                return true;
            }
        }
        false
    }

    /// Whether a handle has a lock.
    fn is_locked(&self, handle: usize) -> bool {
        match self.held(handle) {
            Ok(held) => !matches!(held.lock, Lock::Free),
            Err(_) => false,
        }
    }

    /// Notes that a lock ends.
    fn note_end(&mut self, handle: usize) -> Result<(), HostError> {
        let path = self.held(handle)?.path.as_str();
        let step = Step::new(self.alloc, 0, Act::Unlock, path, "")?;
        self.steps.push(step)?;
        self.done();
        Ok(())
    }
}

/// Whether what is open there has a lock that bars another one on a thing.
fn bars(held: &Option<Held>, thing: usize, is_alone: bool) -> bool {
    let Some(held) = held else {
        return false;
    };
    held.thing == thing
        && match held.lock {
            Lock::Free => false,
            Lock::Shared => is_alone,
            Lock::Alone => true,
        }
}

/// What a host tells of names that lead to something, the last one first.
fn told_names(alloc: Global, names: &[Name]) -> Result<Vec<Txt>, HostError> {
    let mut listed = Vec::new(alloc);
    for name in names.iter().rev() {
        if name.now.is_some() {
            listed.push(Txt::from_str(alloc, told(name.text.as_str()))?)?;
        }
    }
    Ok(listed)
}

/// What a host tells of a name.
fn told(name: &str) -> &str {
    if name.starts_with('\\') {
        "\u{FFFD}"
    } else {
        name
    }
}

/// Whether any of these names leads to something.
fn is_used(names: &[Name]) -> bool {
    names.iter().any(|name| name.now.is_some())
}

/// All bytes, or the first half of them.
fn part(bytes: &[u8], is_half: bool) -> &[u8] {
    if is_half {
        bytes.get(..bytes.len() / 2).unwrap_or(&[])
    } else {
        bytes
    }
}
