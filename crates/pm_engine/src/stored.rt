//! Stored rows.

use pm_values::{Kind, Row};

/// What is kept of the rows of a key.
#[derive(Drop)]
pub struct Stored {
    pub kind: Kind,
    pub row: Row,
}
