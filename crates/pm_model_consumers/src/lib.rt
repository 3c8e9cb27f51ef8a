//! Consumers, floors and expiry, by numbers, names and frames alone: definitions and laws, which know no file.
//!
//! `specs/Claims.antt` says what there is at a moment, and what is known of each consumer beside its file: that one who
//! registers it waits and nobody touched its file since, or that it is settled, and which frames it was moved past.
//! `specs/Changes.antt` has the kinds of change that commands make of it, each with what is known then,
//! `specs/Known.antt` what a follower knows of the name that it registers, and `specs/Expiry.antt` what an expirer
//! knows.
//!
//! `kept_law` says that each kind keeps what holds, so that the least snapshot is never above the number of a consumer
//! that counts (`least_law`): of a settled one, and of one whose follower has listed the floors; `begins_law` that all
//! of it holds where no more is known than that some are settled. `settled_law` says that a settled consumer stays so
//! until its file goes, and that the frames that it was moved past are those from where it came to be, each once and in
//! order. `follower_law` and `expirer_law` say that what a follower and an expirer know is kept by each kind, whoever
//! else acts, and how their own steps lead on, and `expires_law` that the least snapshot below an expirer's end may go
//! once it has no file to read any more. No law speaks of a pair of commands: whether the follower that registers or
//! the expirer comes first, one of them knows of the other.
#![tactic(auto)]

mod laws;

pub use laws::{
    begins_law, expirer_law, expires_law, follower_law, kept_law, least_law, settled_law,
};
