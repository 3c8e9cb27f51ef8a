//! Names of bytes that several cases have.

use std::alloc::{AllocError, Global};

/// Bytes, with the name that stands for them.
#[derive(Drop)]
struct Named {
    name: String,
    bytes: Vec<u8>,
}

/// All names so far.
pub struct Names {
    names: Vec<Named>,
}

impl Drop for Names {
    fn drop(self) {
        let Names { names } = self;
    }
}

impl Names {
    /// No names.
    pub fn new(alloc: Global) -> Names {
        Names {
            names: Vec::new(alloc),
        }
    }

    /// Gives a name to bytes.
    pub fn add(&mut self, name: String, bytes: Vec<u8>) -> Result<(), AllocError> {
        self.names.push(Named { name, bytes })?;
        Ok(())
    }

    /// The bytes that a text is the name of.
    pub fn find(&self, text: &str) -> Option<&[u8]> {
        for named in self.names.iter() {
            if named.name.as_str() == text {
                return Some(named.bytes.as_slice());
            }
        }
        None
    }
}
