//! The changelog of a snapshot, read by a machine that makes one call of the store a step, and the paths that a
//! snapshot names.
//!
//! A `LogReader` reads a snapshot, its changelog list and that list's manifests alone, as `pm_read_table` reads those
//! of a table, or goes on from a snapshot that was just read (`opened_log`): its `Log` has their entries. `named_paths`
//! lists all paths that a snapshot names, by a view of it and its changelog.
//!
//! `specs/LogReader.antt` has the phases, the calls and what each answer leads to, `specs/LogMeaning.antt` what a
//! reader knows in each phase, and `specs/LogTrace.antt` which calls it made.
#![tactic(auto)]

mod log;
mod log_after;
mod log_laws;
mod log_machine;
mod log_phase;
mod log_reader;
mod named;

pub use log::{Log, LogAsked, LogReading};
pub use log_laws::{log_causes_law, log_images_law, log_known_law, whole_law};
pub use log_phase::LogPhase;
pub use log_reader::{LogReader, into_log, is_log_ready, log_at, opened_log};
pub use named::named_paths;
