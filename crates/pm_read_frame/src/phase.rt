//! How far the reading of a frame has come.

use crate::reading::Reading;
use pm_base::Txt;
use pm_read_log::LogReader;

/// How far the reading of a frame has come: the changelog of its snapshot is being read; or the next call reads one of
/// the changelog's files; or reads the snapshot with that id again, since the file at that path is absent; or the text
/// of that snapshot's frame is ready; or the reading ended before that.
#[derive(Drop)]
pub enum Phase {
    Log { reader: LogReader },
    Files { reading: Reading },
    Again { id: u64, path: Txt },
    Ready { id: u64, text: Vec<u8> },
    Over,
}
