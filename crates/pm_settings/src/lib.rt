//! A table's options, read from settings and written as settings.
//!
//! A setting is an option's key and its text. What a setting means, which settings are refused and what options are
//! written as are definitions of `pm_options`.
#![tactic(auto)]

mod entries;
mod fault;
mod fields;
mod kinds;
mod names;
mod numbers;
mod pairs;
mod read;
mod settings;
mod table;
mod write;

pub use entries::entry_of;
pub use fault::{limit, unsupported};
pub use kinds::{print_engine, print_producer};
pub use names::print_names;
pub use read::read_options;
pub use settings::fill;
pub use write::write_options;
