//! Merge engines: how the rows of a key become one stored row.
//!
//! An engine is a `MergeEngine`, whose meaning is a value: what fits, which kinds are taken, what a column is worth
//! over rows of a key, and which keys show (`specs/Meaning.antt`). A stored row speaks for rows of its key where it is
//! worth the same as they are, among whatever other rows of the key. The trait's clauses are four laws over these
//! words: a lifted row speaks for itself, a combined one for what both spoke for, a stored row shows where its rows do,
//! and a droppable one has no effect. The layers above rest on them alone, and no engine is named there. An engine says
//! which of two stored rows is needed (`specs/Needed.antt`), so a row is copied to be combined only where both are.
//!
//! What is made here has the kind of its rows, too, and so it is the stored row of these rows: there is one
//! (`stored_law`). A file that was found may have another kind beside the same values: its row speaks for the rows all
//! the same, and what is made of it has a kind that follows from the kinds of the rows found.
//!
//! Runs cover rows (`specs/Covers.antt`) where each run has one stored row for its part of each key's rows, and at most
//! the first rows of a key are missing, which then have no effect: the rows are worth what the runs have
//! (`covers_law`, `worth_law`), and a run may be put after others (`added_law`). `reduce` makes one such run of rows,
//! and none is missing; `combined` makes one stored row of two. What the engine of a schema means is in
//! `specs/OfSchema.antt`.
#![tactic(auto)]

mod engine;
mod laws;
mod needed;
mod reducing;
mod stored;

pub use engine::MergeEngine;
pub use laws::{added_law, covers_law, own_kind_law, stored_law, worth_law};
pub use needed::Needed;
pub use pm_model_history::Verdict;
pub use reducing::{combined, reduce};
pub use stored::Stored;
