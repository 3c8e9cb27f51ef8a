//! Files that are removed from a store, one after another. A machine that is a part of others: it has no step of its
//! own, and its facts are cited where another one makes its calls.
//!
//! A `Remover` removes the paths that it was given, in their order, each by one call. One that is absent is passed
//! over, and no answer shows a refusal: it ends once all paths were removed, before that only where the store failed or
//! memory ran out. What follows a remove takes no memory.
//!
//! `specs/Remover.antt` has its phases, its calls and what each answer leads to; `specs/Meaning.antt` what its call may
//! change of the files, and what of the files is left after some removes; `specs/Trace.antt` which calls it made, as a
//! function of the paths, and which show a refusal. All this is said of files alone: what they stand for, and that each
//! remove is a change of some kind, is for the machine that holds a remover to say. Whatever of a call is carried out,
//! only its path goes (`changes_law`, `leads_law`). Where nobody else acts, the files lose exactly the paths, and each
//! image of the calls has lost the first so many of them (`alone_law`).
#![tactic(auto)]

mod laws;
mod machine;
mod phase;
mod removal;
mod remover;

pub use laws::{alone_law, changes_law, leads_law};
pub use phase::Phase;
pub use removal::Removal;
pub use remover::{Remover, are_removed, new_remover};
