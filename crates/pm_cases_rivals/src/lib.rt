//! Who acts on a real folder in the cases of `pm_cases_folder`: a command through `run`; two writers, who take turns
//! after each call of the store; two compactors and a writer, who do so. What each of them answers is said to the case.
//! They stand apart from that program, whose check loads all that it reaches.
#![tactic(auto)]

mod command;
pub mod compactors;
pub mod writers;

pub use command::run_command;
