//! Files that are put into a store: created one after another, and then one of them published. A machine that is a part
//! of others: it has no step of its own, and its facts are cited where another one makes its calls.
//!
//! A `Putter` creates files in the order in which they were given, and once all are there it publishes one more, after
//! a path that has to stand then: as many calls as there are files, and one more. It ends with the publish, which took
//! effect or was lost to others, or at the first create that meets a file, whose path it refuses. What follows a create
//! or the publish takes no memory.
//!
//! `specs/Putter.antt` has its phases, its calls and what each answer leads to; `specs/Meaning.antt` what it knows of
//! the files in each phase and what its call may change of them; `specs/Trace.antt` which calls it made, as a function
//! of what is put, and which show a refusal. All this is said of files alone: what they stand for, and that the publish
//! is a change of some kind, is for the machine that holds a putter to say. What a putter knows stays true as long as
//! each of its files that is there stays so (`kept_law`).
#![tactic(auto)]

mod laws;
mod machine;
mod phase;
mod putter;
mod putting;

pub use laws::kept_law;
pub use phase::Phase;
pub use putter::{PutStep, Putter, new_putter};
pub use putting::{CommitFile, Making, Publishing};
