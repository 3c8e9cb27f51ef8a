//! The store: named files, changed by one atomic call at a time.
//!
//! What the calls do to the files stands in `specs/Files.antt`, what they answer in `specs/Answers.antt`,
//! what a crash may leave in `specs/Images.antt`, and what contracts see of a store in
//! `specs/Store.antt`. `pm_folder_store` has the store on a real folder.
#![tactic(auto)]

mod answer;
mod call;
mod dispatch;
mod failing;
mod files;
mod laws;
mod lent;
mod memory;
mod names;
mod store;

pub use answer::{Answer, Made, Published, Removed, Swapped};
pub use call::{Call, CallKind, Effect, Op};
pub use dispatch::perform;
pub use failing::{FailStore, Planned};
pub use laws::{
    answers_tell_changes_law, first_own_law, images_are_effects_law, stops_are_effects_law,
    swaps_write_one_path_law,
};
pub use lent::LentCall;
pub use memory::MemStore;
pub use names::listed;
pub use store::{FileStore, StoreFail, is_expected};
