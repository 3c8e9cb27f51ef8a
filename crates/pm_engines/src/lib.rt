//! The engine of a table, whichever its schema names.
//!
//! `TableEngine` is one of the four merge engines, and a merge engine itself, whose meaning is that of its schema. What
//! an engine asks of its schema is in `specs/TableEngine.antt`, and each schema that is declared has it
//! (`declared_law`). Its `verdict` names the column because of which a row is refused (`specs/Verdict.antt`).
#![tactic(auto)]

mod laws;
mod table_engine;
mod verdict;

pub use laws::declared_law;
pub use table_engine::TableEngine;
pub use verdict::Verdict;
