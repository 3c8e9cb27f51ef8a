//! The lines of a case file of `pm_cases_commands`: what each says, with the commands and the bytes in it. The head of
//! that program has their format.
#![tactic(auto)]

mod act;
mod bytes;
mod command;
mod line;
mod names;
mod read;

pub use act::{Act, Deed};
pub use command::{Command, ROOM, cut_lines};
pub use line::{Line, LineFault, Step};
pub use names::Names;
pub use read::read_line;
