//! How far the reading of a consumer's file has come.

use pm_base::{Blob, Txt};
use pm_snapshot::Consumer;

/// What was found at the path of a consumer, and what it says, where a file is there.
#[derive(Drop)]
pub struct FoundConsumer {
    pub found: Option<Blob>,
    pub consumer: Option<Consumer>,
}

/// How far the reading has come: the next call reads the file at this path; or what was found is known; or the reading
/// ended before that.
#[derive(Drop)]
pub enum Phase {
    Read { path: Txt },
    Ready { found: FoundConsumer },
    Over,
}
