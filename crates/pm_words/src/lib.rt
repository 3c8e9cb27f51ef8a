//! Which words give which command.
//!
//! `command_in` reads the words of a command, and `no_command` is the refusal of words that give none. Which words give
//! a command is a relation (`specs/Words.antt`): a command's word, and then its options, in any order and each at most
//! once, as `--name value` or `--name=value`. No words give two commands (`one_command_law`).
//!
//! Options are read with `clap`. `specs/Clap.antt` has what it is told of a command's options and what it finds of
//! their words; `proofs/WalkLemmas.antt` goes with it word by word, `ReadLemmas.antt` over all words, in both
//! directions, and `FindLemmas.antt` leads from what it finds to what is given.
#![tactic(auto)]

mod command;
mod declared;
mod laws;
mod options;
mod usage;
mod values;

pub use command::{Command, command_in, no_command};
pub use laws::one_command_law;
pub use pm_values::{Refusal, Txt};
pub use usage::usage_text;
