//! The command `follow` with a consumer: print how the snapshots of a table change it, from the one that the consumer
//! reads next, and move the consumer past each once it was printed.
//!
//! It is machines in turn, as `pm_command_follow` is, whose pieces it prints. `specs/Consume.antt` says which calls it
//! makes by what it answers and what the sink took: a settled consumer's number is the start; another is registered
//! first; each frame is handed out, that is printed and then moved past. `specs/Alone.antt` says what it prints of a
//! history and what it leaves, at its end and in each image of a crash, where nobody else acts; `specs/Beside.antt`
//! that whatever others do, each of its calls is a change of a kind that its actor may make, each move is one past the
//! text that was printed, and the pieces are a prefix of what is printed of the history.
#![tactic(auto)]

mod consume;
mod consuming;
mod frames;
mod laws;
mod opening;
mod place;

pub use consume::run_consume;
pub use consuming::Consuming;
pub use laws::{complete_law, consume_law, one_answer_law, twice_law};
