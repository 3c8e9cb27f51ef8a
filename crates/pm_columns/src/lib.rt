//! What a schema says of its columns, and of the rows that its engine takes.
//!
//! Each call finds what `pm_model_history` and `pm_options` define: whether a column is one of the key, its function,
//! its delimiter, its sequence group, and the verdict on a row. `wrapped` cuts an integer down to a type's bits.
#![tactic(auto)]

mod columns;
mod verdicts;
mod wrapping;

pub use columns::{delimiter_of, function_of, group_of, is_key, skips_retractions};
pub use verdicts::verdict_of;
pub use wrapping::wrapped;
