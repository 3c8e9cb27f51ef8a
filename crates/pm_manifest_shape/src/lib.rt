//! What of a table's schema its manifests depend on, and the numbers in their records, read and written.
//!
//! A `TableShape` is made once for each manifest or list that is read or written. What it is of a schema, and what the
//! numbers are, are definitions of `pm_manifest`.
#![tactic(auto)]

mod number;
mod shape;

pub use number::{
    MOST_COUNTED, MOST_ID, MOST_SEQUENCE, read_count, read_natural, write_count, write_natural,
};
pub use shape::TableShape;
