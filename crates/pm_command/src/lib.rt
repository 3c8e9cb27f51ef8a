//! What all commands share: what a command has to do with and what it prints (`specs/Outside.antt`), and why it refuses
//! a table before it does anything of its own (`specs/Table.antt`).
#![tactic(auto)]

mod own;
mod printing;
mod start;

pub use own::{own_names, own_user};
pub use printing::{print, print_snapshot};
pub use start::Start;
