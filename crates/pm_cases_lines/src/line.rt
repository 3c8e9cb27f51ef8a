//! The lines of a case file.

use crate::act::{Act, Deed};
use pm_store::Planned;
use std::alloc::{AllocError, AllocFailed};

/// What a line of a case file says.
#[derive(Drop)]
pub enum Line {
    Case { name: String },
    Again { most: u64 },
    Name { name: String, bytes: Vec<u8> },
    Note,
    Step(Step),
}

/// What a line of a case says.
#[derive(Drop)]
pub enum Step {
    Store { plan: Vec<Planned> },
    As { name: String },
    Do(Deed),
    Before(Act),
    Calls,
    List { folder: String },
    Files,
    Sum,
}

/// Why a text isn't read as a line: out of memory, or it is none.
#[derive(Drop)]
pub enum LineFault {
    Memory,
    Unknown,
}

impl From<AllocError> for LineFault {
    fn from(_e: AllocError) -> LineFault {
        LineFault::Memory
    }
}

impl<T: Drop> From<AllocFailed<T>> for LineFault {
    fn from(_e: AllocFailed<T>) -> LineFault {
        LineFault::Memory
    }
}
