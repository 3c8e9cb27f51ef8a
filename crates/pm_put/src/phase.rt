//! How far files have been put.

use crate::putting::{Making, Publishing};

/// How far files have been put: the next call creates one; or publishes the last. Or that took effect; or it was lost
/// to others; or the putting ended before that.
#[derive(Drop)]
pub enum Phase {
    Create { making: Making },
    Publish { publishing: Publishing },
    Published,
    Lost,
    Over,
}
