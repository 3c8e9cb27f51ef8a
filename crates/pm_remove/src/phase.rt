//! How far paths have been removed.

use crate::removal::Removal;

/// How far paths have been removed: the next call removes one; or all were removed; or the removing ended before that.
#[derive(Drop)]
pub enum Phase {
    Remove { removal: Removal },
    Removed,
    Over,
}
