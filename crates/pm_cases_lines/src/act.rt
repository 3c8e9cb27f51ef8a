//! What is done to the files of a case, by a line or by others between the calls of a command.

use crate::command::Command;

/// What is done to files: one is put in place or replaced, one is taken away where it is there, or a command runs.
#[derive(Drop)]
pub enum Deed {
    Put { path: String, bytes: Vec<u8> },
    Take { path: String },
    Run(Command),
}

/// What others do before a call of the next command, whose calls are counted from 1.
#[derive(Drop)]
pub struct Act {
    pub call: u64,
    pub deed: Deed,
}
