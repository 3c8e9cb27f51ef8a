//! How far the making of a table has come.

use pm_base::{Blob, Txt};

/// How far the making of a table has come: its next call creates the origin, at that path, and then the file of its
/// schema is to have these bytes; or swaps that file in; or the table is made; or the making ended before that.
#[derive(Drop)]
pub enum Phase {
    Origin { path: Txt, bytes: Blob },
    Schema { bytes: Blob },
    Created,
    Over,
}
