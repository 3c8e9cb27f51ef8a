//! How far the reading of the latest snapshot's id has come.

/// How far the reading has come: the next call lists the snapshots; or the id is known; or the reading ended before
/// that.
#[derive(Drop)]
pub enum Phase {
    List,
    Ready { latest: u64 },
    Over,
}
