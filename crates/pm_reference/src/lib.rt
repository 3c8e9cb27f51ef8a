//! The merged table of a schema, plain and slow, whatever the engine: what the engines are tried against.
//!
//! `merged_rows` goes through the definition of `pm_model_history`. For each key it filters the key's rows, and takes
//! one column after another over all of them; it never combines two stored rows. `verdict_of` says what an engine
//! takes.
#![tactic(auto)]

mod aggregates;
mod groups;
mod table;
mod values;

pub use pm_columns::verdict_of;
pub use table::merged_rows;
