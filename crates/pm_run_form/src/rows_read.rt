//! Rows that were read of a block.

use pm_values::{Refusal, Stamped};

/// Rows that were read, and the refusal of what comes after them, if it is refused.
#[derive(Drop)]
pub struct RowsRead {
    pub rows: Vec<Stamped>,
    pub refusal: Option<Refusal>,
}
