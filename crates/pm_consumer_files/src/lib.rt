//! What commands ask of the files of consumers and of floors: their paths, which floor exceeds a number, and what is
//! printed of consumers.
//!
//! `specs/Floors.antt` says which floors names list, and whether one exceeds a number: whoever registers a consumer
//! refuses then, with the greatest. `specs/Lines.antt` says what is printed of consumers. Each call of `src/paths.rt`
//! is equal to the definition of its name in `pm_model_folder`. The file of a consumer itself is read and written by
//! `pm_snapshot`.
#![tactic(auto)]

mod floors;
mod lines;
mod paths;

pub use floors::floor_above;
pub use lines::{NamedConsumer, print_consumers};
pub use paths::{consumer_path, floor_path};
