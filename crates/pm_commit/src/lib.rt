//! A commit that appends the rows of a batch, or compacts, as a machine that makes one call of the store a step.
//!
//! A `Committer` lists the folder `manifest` once, so that no other actor of its name was there before. It tries at
//! most eleven times: it reads the newest view, looks for an earlier commit of its user where that is asked for,
//! creates its files, and publishes the snapshot after the newest. Where another snapshot was published there first, or
//! the newest has gone, it begins again from the view. A compaction begins with its first try made, and its files of
//! rows are created before the first of its calls. Whatever others do between, each of its calls changes nothing, or
//! makes a file of its actor's own, or adds its entry to the history while the newest snapshot stands. What a commit is
//! for is an `Intent` of `pm_made`, which makes its files at each try.
//!
//! `specs/Own.antt` has what a commit is made of, `specs/Marks.antt` how an actor is known by its files' names,
//! `specs/Search.antt` what a snapshot says of a commit; `specs/Committer.antt` the phases, the calls and what each
//! answer leads to; `specs/Meaning.antt` what a committer knows in each phase, and what a step means for the files;
//! `specs/Trace.antt` which calls it made, and which show a refusal; `specs/Alone.antt` what is true in each phase
//! where nobody else acts, and which refusals come then; `specs/AllCalls.antt` what all its calls do in a row.
#![tactic(auto)]

mod after;
mod all_calls;
mod committer;
mod found;
mod laws;
mod lost;
mod machine;
mod made;
mod marks;
mod own;
mod paths;
mod phase;
mod put;
mod search;

pub use all_calls::{Appended, append_rows};
pub use committer::{CommitStep, Committer, commit_step, new_committer, new_compaction};
pub use found::Found;
pub use laws::{actor_law, begins_law, causes_law, held_law, known_law, one_answer_law};
pub use marks::used_path;
pub use own::Own;
pub use phase::Phase;
pub use search::{Searching, Seen};
