//! How far the drop of a consumer has come.

use pm_base::Txt;

/// How far the drop has come: the next call removes the consumer's file; or it was told whether one was there; or the
/// drop ended before that.
#[derive(Drop)]
pub enum DropPhase {
    Remove { path: Txt },
    Dropped { was_there: bool },
    Over,
}
