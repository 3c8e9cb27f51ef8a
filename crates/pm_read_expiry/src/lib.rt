//! What an expiry needs to know of a table, read by a machine: its snapshots with their times, the floors, the
//! consumers that are read before anything is announced, and the end that follows from these.
//!
//! An `ExpiryReader` lists the snapshots; where there is none but the origin it is ready. Else it lists the floors,
//! lists the consumers and reads each, and reads the snapshots that were listed, rising. Of these the last count, from
//! the least id on from which on none lacks. It changes nothing.
//!
//! `specs/Times.antt` says which snapshots count, and which is the least number that consumers read next;
//! `specs/Found.antt` what is asked for and found; `specs/Reader.antt` has the phases, the calls and what each answer
//! leads to; `specs/Meaning.antt` what it knows of the table in each phase, whatever others do, and what its refusals
//! tell; `specs/Trace.antt` which calls it made, and which show a refusal.
#![tactic(auto)]

mod after;
mod asking;
mod laws;
mod machine;
mod phase;
mod reader;
mod times;

pub use asking::{Asking, Found, Listed};
pub use laws::{causes_law, images_law, known_law};
pub use phase::Phase;
pub use reader::{ExpiryReader, expiry_reader, into_found, is_found};
pub use times::least_next;
