//! Calls of a store as texts, with what it answers to them, and two stores on one real folder: what `pm_cases_stores`,
//! `pm_cases_host` and `pm_cases_folder` share.
#![tactic(auto)]

mod calls;
mod folder;

pub use calls::{said, say_call, say_content, split_at_blank};
pub use folder::{RealStore, TwoStores};
