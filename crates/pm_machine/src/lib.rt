//! Machines that make one call of a store a step: the form of every command.
//!
//! A machine knows no store. It tells the call that it makes next, and takes what was answered; `step` is the one place
//! that has both. A step makes that call once and hands the answer over. Where memory ran out before the call, or where
//! the store failed in it, it stops the machine and says which, with the call's path. A machine that refused or was
//! stopped is at its end. This stands in `specs/Step.antt`.
//!
//! A command is an enum of its phases, with `impl Phase`: what its next call is in each, and which phase or refusal an
//! answer leads to. `Running` makes a machine of it. What its steps mean is `impl PhaseMeaning`, and `make_step` makes
//! one of them: it asks for what the command proves of its phases, and promises of each step what follows from that.
//! A machine that changes nothing says less of its phases (`ReaderPhase`), and has its laws in one place
//! (`LawfulPhase`): `take_step` asks for nothing more, and is the step of each such machine.
//!
//! What files stand for, the kinds of change, and what a machine knows are parameters of `specs/Moves.antt`: no
//! command, folder or history is named here. A machine proves `Sound` once, by cases on its phase. Then each of its
//! steps is one change of some kind or none, whatever others do between (`Moves`, `moved_law`), and so is each crash
//! image of its calls (`images_law`). Where nobody else acts between, the files stand for a history all along, and what
//! others know of them stays true if each kind of change keeps it (`Stands`, `stands_law`).
//!
//! `specs/Trace.antt` has a machine's own calls with their answers. It proves `Recounts` once, and each of its steps
//! adds the next call to them, or none (`Acts`, `acted_law`). So there is a trace of them, each at its place among all
//! operations, that shows what was refused (`HasTrace`, `traces_law`). What shows that the store failed, or that memory
//! ran out, is the same for all machines of phases (`IsFailed`, `MayEnd`).
//!
//! Of files and answers all this speaks where the store's operations are known.
#![tactic(auto)]

mod lawful;
mod laws;
mod machine;
mod phase;
mod phase_meaning;
mod reader_phase;
mod running;
mod stepping;

pub use lawful::{LawfulPhase, take_step};
pub use laws::{Meaning, acted_law, images_law, moved_law, stands_law, traces_law};
pub use machine::Machine;
pub use phase::Phase;
pub use phase_meaning::PhaseMeaning;
pub use reader_phase::ReaderPhase;
pub use running::{Running, make_step};
pub use stepping::step;
