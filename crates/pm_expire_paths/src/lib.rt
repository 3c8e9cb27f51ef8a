//! The paths that an expiry removes, in their order.
//!
//! A `Dropping` takes the paths of one view after another, and has those that some view named and the last one
//! doesn't: two sets, so that no more is held than there are paths. `floors_below` has the floors that names list below
//! a number, and `removals` all paths: the origin and the snapshots, then the dropped files, then the floors.
//!
//! `specs/Dropping.antt` and `specs/Floors.antt` say which these are. `seen_law` says of a `Dropping` what views it has
//! seen.
#![tactic(auto)]

mod dropping;
mod floors;
mod laws;
mod paths;

pub use dropping::Dropping;
pub use floors::floors_below;
pub use laws::seen_law;
pub use paths::{Expiring, removals};
