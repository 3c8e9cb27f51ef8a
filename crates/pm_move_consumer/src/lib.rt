//! The move of a consumer past a snapshot, and its drop: two machines of one call of a store each.
//!
//! A `Mover` swaps the consumer's file, from the very bytes that were read or written there last, to those of the next
//! number. Where the file is another by then it refuses with what was found. A `Dropper` removes the file, and tells
//! whether one was there. `move_consumer` and `drop_consumer` make their calls.
//!
//! Whoever moves a consumer printed the frame of its number before: that is asked of the caller, and no call shows it.
//! Whatever others do, a swap that was carried out is a move past that text in what is known of the name, and nothing
//! else changes; a remove leaves nothing known of it. Where nobody else acts, the table stands, who was settled is, and
//! no other path has another content, in each crash image too.
//!
//! `specs/Mover.antt` has a mover's phases, its call and what the answer leads to; `specs/MoverMeaning.antt` what it
//! knows of the table, with who moves and what was printed, which the phases don't hold, beside the past;
//! `specs/MoverTrace.antt` which calls it made, and which show a refusal; `specs/MoverAllCalls.antt` what its call does
//! where nobody else acts, and whatever others do. `specs/Dropper.antt` and those after it say the same of a dropper.
#![tactic(auto)]

mod drop_machine;
mod drop_phase;
mod dropper;
mod laws;
mod move_machine;
mod move_phase;
mod mover;

pub use drop_phase::DropPhase;
pub use dropper::{Dropper, drop_consumer, dropper_of, into_told, step_dropper};
pub use laws::{drops_law, images_law, known_law, moves_law, one_answer_law};
pub use move_phase::MovePhase;
pub use mover::{Mover, into_moved, move_consumer, mover_of, step_mover};
