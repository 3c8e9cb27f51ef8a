//! What stands in a double's folders, as it is now and as its disk may have it.

use std::alloc::{AllocError, Global};

/// A name in a folder: what it leads to now, and what else it may lead to after a power loss.
pub struct Name {
    pub text: String,
    pub now: Option<usize>,
    pub before: Vec<Option<usize>>,
}

impl Drop for Name {
    fn drop(self) {
        let Name { text, now, before } = self;
    }
}

impl Name {
    /// A name that leads to nothing, also on the disk.
    pub fn new(alloc: Global, text: &str) -> Result<Name, AllocError> {
        Ok(Name {
            text: String::from_str(alloc, text)?,
            now: None,
            before: Vec::new(alloc),
        })
    }

    /// Has the name lead to another thing or to none. A power loss may undo that until the folder is synced.
    pub fn lead(&mut self, thing: Option<usize>) -> Result<(), AllocError> {
        if self.now != thing && !self.before.contains(&self.now) {
            self.before.push(self.now)?;
        }
        self.before.retain(|other| *other != thing);
        self.now = thing;
        Ok(())
    }

    /// Has the disk know what the name leads to.
    pub fn settle(&mut self) {
        self.before.clear();
    }

    /// In how many ways a power loss may leave the name.
    pub fn ways(&self) -> u64 {
        u64::try_from(self.before.len())
            .unwrap_or(0)
            .saturating_add(1)
    }

    /// What the name leads to in an image: what it leads to now, or one of the others.
    pub fn choice(&self, digit: u64) -> Option<usize> {
        let mut left = digit;
        for other in &self.before {
            if left == 1 {
                return *other;
            }
            left = left.saturating_sub(1);
        }
        self.now
    }

    /// The same name, which leads there on the disk too.
    pub fn settled_copy(&self, alloc: Global, thing: Option<usize>) -> Result<Name, AllocError> {
        Ok(Name {
            text: String::from_str(alloc, self.text.as_str())?,
            now: thing,
            before: Vec::new(alloc),
        })
    }
}

/// A file's bytes, and whether the disk has them.
pub struct Bytes {
    pub now: Vec<u8>,
    pub is_synced: bool,
}

impl Drop for Bytes {
    fn drop(self) {
        let Bytes { now, is_synced } = self;
    }
}

impl Bytes {
    /// A file's bytes, which the disk has.
    pub fn synced(alloc: Global, bytes: &[u8]) -> Result<Bytes, AllocError> {
        Ok(Bytes {
            now: Vec::from_slice(alloc, bytes)?,
            is_synced: true,
        })
    }

    /// In how many ways a power loss may leave them: where the disk doesn't have them all, none or half of them too.
    pub fn ways(&self) -> u64 {
        if self.is_synced || self.now.is_empty() {
            1
        } else {
            3
        }
    }

    /// What a power loss leaves: the whole, the first half, or nothing.
    pub fn choice(&self, alloc: Global, digit: u64) -> Result<Bytes, AllocError> {
        let length = match digit {
            0 => self.now.len(),
            1 => self.now.len() / 2,
            _ => 0,
        };
        Bytes::synced(alloc, self.now.get(..length).unwrap_or(&[]))
    }
}

/// What stands somewhere. A link leads to a thing or to nothing.
pub enum Thing {
    File(Bytes),
    Folder(Vec<Name>),
    Link(Option<usize>),
}

impl Drop for Thing {
    fn drop(self) {
        match self {
            Thing::File(bytes) => {}
            Thing::Folder(names) => {}
            Thing::Link(_) => {}
        }
    }
}

/// A thing, when its content changed last, or what was set as that, and when anything of it did, in microseconds since
/// 1970, and the folder around it, if it is a folder.
pub struct Node {
    pub thing: Thing,
    pub changed: u64,
    pub touched: u64,
    pub around: usize,
}

impl Drop for Node {
    fn drop(self) {
        let Node {
            thing,
            changed,
            touched,
            around,
        } = self;
    }
}

/// Whether a lock is held on what is open, and with others or alone.
#[derive(Clone, Copy)]
pub enum Lock {
    Free,
    Shared,
    Alone,
}

/// Who has something open: the process that is watched, one that acts beside it, or one that never ends.
#[derive(Clone, Copy)]
pub enum Owner {
    Watched,
    Aside,
    Lasting,
}

/// What somebody has open: the thing, the path by which it was opened, and its lock.
pub struct Held {
    pub owner: Owner,
    pub thing: usize,
    pub path: String,
    pub lock: Lock,
}

impl Drop for Held {
    fn drop(self) {
        let Held {
            owner,
            thing,
            path,
            lock,
        } = self;
    }
}
