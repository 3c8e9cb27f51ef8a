//! A whole view of a table at a snapshot: the view with the entries of its live files, and the snapshot's changelog.
//!
//! A `WholeReader` is one machine over two readers: that of the view (`pm_read_table`) reads the snapshot first,
//! without a listing, and that of the changelog (`pm_read_log`) goes on from that. It changes nothing. Once both are
//! ready it has them, and all paths that the snapshot names.
//!
//! `specs/Whole.antt` has the phases, the calls and what each answer leads to; `specs/Meaning.antt` what a reader knows
//! in each phase, and that its paths are those that the snapshot named; `specs/Trace.antt` which calls it made, and
//! which show a refusal.
#![tactic(auto)]

mod after;
mod copy;
mod laws;
mod machine;
mod phase;
mod whole;

pub use laws::{causes_law, images_law, known_law, paths_law};
pub use phase::Phase;
pub use whole::{WholeReader, into_parts, is_whole_ready, paths_in, whole_at};
