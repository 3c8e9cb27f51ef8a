//! The log of a compaction: what it changes for those who follow the table, where the producer compares what a key
//! showed with what it shows.
//!
//! Both calls merge the newer runs, row by row, and of each key put its row upon the older one: `full_log` reads the
//! older runs beside the newer ones, and `lookup_log` those of them that the compaction takes, and looks the old value
//! up in the others (`pm_lookup`). No run is in memory whole, and no key is spoken of that only the older runs have.
//! What is told of a key stands in `specs/Told.antt`: `+I`, `-U` and `+U`, or `-D`, by what the engine shows; nothing
//! of two equal rows, where the table leaves these out. The log is that of `pm_model_changelog`, and so the group's
//! part of the change of the compaction's snapshot (its `lookup_log_law` and `full_log_law`). The rows that are given
//! were read and judged before, so that no refusal comes but of looking an old value up, and of want of memory.
#![tactic(auto)]

mod full;
mod looked;
mod older;
mod told;

pub use full::full_log;
pub use looked::lookup_log;
