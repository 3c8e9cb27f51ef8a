//! What of a table's schema its files of rows depend on, the Avro type of what is written of it, and the rules of rows:
//! what `pm_run` defines, as code.
//!
//! A `TableForm` is made once for each file that is read and for each writer. The crates that read rows, by their data
//! or where they lie in bytes, judge them by the same rules (`src/rules.rt`). What is written of a row that a file can
//! have is read as the same row (`proofs/AgainLemmas.antt`).
#![tactic(auto)]

mod form;
mod kinds;
mod rows_read;
mod rules;

pub use form::TableForm;
pub use kinds::run_kind;
pub use rows_read::RowsRead;
pub use rules::{MOST_SEQUENCE, agree, keeps_kind, last_key, may_follow, own_key};
