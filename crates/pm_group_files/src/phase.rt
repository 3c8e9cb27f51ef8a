//! How far the files of groups have been read.

use crate::collected::Collected;
use crate::reading::Reading;
use pm_base::Txt;

/// How far the files of groups have been read: the next call reads one of them; or reads the snapshot again, since the
/// file at that path is absent; or all were read; or the reading ended before that.
#[derive(Drop)]
pub enum Phase {
    Files { reading: Reading },
    Again { id: u64, path: Txt },
    Ready { collected: Collected },
    Over,
}
