//! A double of an operating system: files, folders and links in memory, calls of which some fail as planned, what a
//! power loss may leave, and what happens beside a process between two of its calls. It stands in the place of
//! `System` below the store on a folder in the cases of `pm_cases_host`. No clause tells of it.
#![tactic(auto)]

mod calls;
mod images;
mod parts;
mod seat;
mod state;
mod steps;
mod world;

pub use seat::{Beside, Handle, Nobody, Seat};
pub use state::{put_word, world_of};
pub use steps::{Plan, Step};
pub use world::{World, held, lent};
