//! How far the move of a consumer has come.

use pm_base::{Blob, Txt};

/// How far the move has come: the next call swaps the consumer's file from the bytes that are expected to new ones; or
/// it has these; or the move ended before that.
#[derive(Drop)]
pub enum MovePhase {
    Swap {
        path: Txt,
        expected: Blob,
        bytes: Blob,
    },
    Moved {
        bytes: Blob,
    },
    Over,
}
