//! How far the listing of consumers has come.

use crate::reading::Reading;

/// How far the listing has come: the next call lists the consumers; or reads the next of their files, where one is
/// left; or the listing ended before that.
#[derive(Drop)]
pub enum Phase {
    List,
    Read { reading: Reading },
    Over,
}
