//! The command `follow`: print how the snapshots of a table change it.
//!
//! It is machines in turn: each reads what the next piece of the text needs, and the piece is printed before the next
//! call of the store. `specs/Printed.antt` says what is printed of a table, where `frame` and `followed` are those of
//! `pm_model_following`, and `specs/Follow.antt` what the command answers, what it has printed then, and that it leaves
//! a folder as it is. `replay_law` is for whoever reads its frames: their rows, replayed on the table that was followed
//! before them, give the one that is followed at the last. `specs/Beside.antt` says what the pieces are where others
//! act meanwhile, and `pieces_law` that they are a prefix of what is printed of the history, however far it has gone
//! on; `FollowsBeside` says so of what the command printed. `specs/Pieces.antt` says how each piece is read and then
//! printed, for whoever follows with a consumer, too.
#![tactic(auto)]

mod follow;
mod laws;
mod pieces;

pub use follow::{followed_schema, run_follow, start_at};
pub use laws::{complete_law, follow_law, one_answer_law, pieces_law, replay_law};
pub use pieces::{print_frame, print_table};
