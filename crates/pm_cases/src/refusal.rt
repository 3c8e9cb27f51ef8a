//! Refusals as answers.

use pm_io::MemSink;
use pm_report::{report, status};
use pm_values::Refusal;
use std::alloc::{AllocError, Global};

/// How much a line may take where nothing is said of it.
pub const ROOM: usize = 1000;

/// The status of a refusal, and its line with the newline.
pub fn print_refusal(alloc: Global, refusal: &Refusal) -> Result<String, AllocError> {
    print_within(alloc, ROOM, refusal)
}

/// The status of a refusal, and its line in a sink with this room.
pub fn print_within(alloc: Global, room: usize, refusal: &Refusal) -> Result<String, AllocError> {
    let mut sink = MemSink::new(alloc, room, Vec::new(alloc))?;
    let is_whole = report(&mut sink, refusal).is_ok();
    let line = String::from_utf8_lossy(alloc, sink.bytes())?;
    let status = status(refusal);
    if is_whole {
        format!(in alloc; "{status} {:?}", line.as_str())
    } else {
        format!(in alloc; "{status} {:?} and no more", line.as_str())
    }
}
