//! Commands, with what they run on.

use pm_base::Txt;
use std::alloc::{AllocError, Global};
use std::mem;

/// How many bytes a sink takes where nothing is said of it.
pub const ROOM: usize = 1048576;

/// A command: the last byte of its session, its moment, its words, its input, how much it may print, the numbers of the
/// writes and of the reads that fail, and whether what it printed is told by its checksum alone.
pub struct Command {
    pub session: u8,
    pub now: i64,
    pub words: Vec<Txt>,
    pub input: Vec<u8>,
    pub room: usize,
    pub sink: Vec<u64>,
    pub source: Vec<u64>,
    pub sum: bool,
}

impl Drop for Command {
    fn drop(self) {
        let Command {
            session,
            now,
            words,
            input,
            room,
            sink,
            source,
            sum,
        } = self;
    }
}

/// Bytes in pieces of so many lines each, of which the last may have fewer; one without bytes where there are none.
pub fn cut_lines(alloc: Global, bytes: &[u8], most: u64) -> Result<Vec<Vec<u8>>, AllocError> {
    let mut pieces = Vec::new(alloc);
    let mut piece = Vec::new(alloc);
    let mut lines: u64 = 0;
    for byte in bytes.iter() {
        piece.push(*byte)?;
        if *byte == b'\n' {
            lines = lines.saturating_add(1);
        }
        if lines == most {
            pieces.push(mem::replace(&mut piece, Vec::new(alloc)))?;
            lines = 0;
        }
    }
    if pieces.is_empty() || !piece.is_empty() {
        pieces.push(piece)?;
    }
    Ok(pieces)
}
