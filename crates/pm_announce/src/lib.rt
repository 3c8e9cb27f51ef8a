//! The announcement of an expiry, by a machine: a floor is created, then the consumers are read again, and the tags
//! listed.
//!
//! An `Announcer` creates the floor of the end that was found, or finds it there, and only then lists the consumers and
//! reads each. It lowers the end to the least that they read next, new ones among them, but not below the first
//! snapshot: where it is that one, nothing is to go. Whoever registers meanwhile is read, or finds the floor. Else it
//! lists the tags. What a tag needs may not go, and tags aren't built: where one is there, it refuses with the first.
//!
//! `specs/Announcer.antt` has its phases, its calls and what each answer leads to; `specs/Tags.antt` which tag a listing
//! has first; `specs/Meaning.antt` what it knows of the table in each phase, whatever others do, what it may change and
//! what its refusals tell; `specs/Trace.antt` which calls it made, and which show a refusal.
#![tactic(auto)]

mod announcer;
mod laws;
mod machine;
mod phase;
mod tags;

pub use announcer::{AnnounceStep, Announcer, announcer_of, into_announced, step_announcer};
pub use laws::{causes_law, images_law, known_law};
pub use phase::{Announced, Phase};
