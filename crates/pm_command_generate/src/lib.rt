//! The command `generate`: a table is made and filled with batches of drawn rows, compacted behind each fifth, and
//! scanned; one line says how many rows were drawn, how many the scan shows, and the sum of their numbers.
//!
//! It executes other commands one after another, each as `run` would, by an actor of its own: those of one session,
//! from 0 on. `specs/Generate.antt` says which (`commands_of`), that they are executed in turn (`AreExecuted`), up to
//! one that is refused, and what is printed (`summary`). What they make stands, whatever comes after. It holds one
//! batch.
#![tactic(auto)]

mod drawing;
mod filling;
mod generate;
mod inner;
mod steps;
mod turn;

pub use drawing::Drawing;
pub use generate::run_generate;
