//! The commands: `run` takes a command's words, its input and a store, and prints what it did.
//!
//! `pm_words` says which words give a command. `specs/Commands.antt` puts together what each of them answers, which the
//! crates of the commands say: `pm_command_create`, `pm_command_scan`, `pm_command_snapshots`, `pm_command_consumers`,
//! `pm_command_write`, `pm_command_compact`, `pm_command_expire` and `pm_command_follow`. What a command has to do
//! with, and what it prints, are definitions of `pm_command`.
//!
//! `specs/Promise.antt` is the promise, on one page. It says what each command does, in the words of histories, and
//! what is so of every command that was executed: what stands at the end, what was printed, what each image of a crash
//! stands for, and that others are free to go on. `run` ensures it, as `keeps_law` draws it from its clauses `acts` and
//! `history`. The other laws put commands together: what any of them may begin with, and what those that are executed
//! one after another make.
#![tactic(auto)]

mod execute;
mod laws;
mod running;

pub use laws::{
    base_law, chain_law, first_steps_law, frames_law, free_law, in_turn_law, keeps_compact_law,
    keeps_consume_law, keeps_consumers_law, keeps_create_law, keeps_drop_law, keeps_expire_law,
    keeps_follow_law, keeps_law, keeps_scan_law, keeps_snapshots_law, keeps_write_law,
    kept_consume_law, kept_follow_law, kept_law, kept_scan_law, next_command_law, next_law,
    same_scan_law,
};
pub use pm_command::Start;
pub use running::{Status, run};
