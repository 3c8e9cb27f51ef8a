//! The id of a table's latest snapshot, found by a machine of one call.
//!
//! A `LatestReader` lists the folder `snapshot`, and has the greatest of the ids in its names, 0 where they bear none
//! above it. It changes nothing. `read_latest` makes its call.
//!
//! `specs/Reader.antt` has its phases, its call and what the answer leads to; `specs/Meaning.antt` what it knows of the
//! table in each phase, whatever others do; `specs/Trace.antt` which calls it made, and which show a refusal;
//! `specs/AllCalls.antt` what they find where nobody else acts.
#![tactic(auto)]

mod all_calls;
mod laws;
mod machine;
mod phase;
mod reader;

pub use all_calls::read_latest;
pub use laws::{all_calls_law, images_law, known_law, listed_law, one_answer_law};
pub use phase::Phase;
pub use reader::{LatestReader, into_latest, is_latest_ready, latest_reader};
