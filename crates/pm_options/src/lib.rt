//! What the options of a table are: the options as values, and definitions of their texts.
//!
//! A setting is an option's key and its text. `specs/Table.antt` has each option with the texts that it takes,
//! `specs/Kinds.antt` the texts of engines, producers and functions, `specs/Fields.antt` the options of a column,
//! `specs/Options.antt` which options settings state, `specs/Pairs.antt` the pairs of options that don't go together,
//! `specs/Reading.antt` the first fault of settings, `specs/Written.antt` the settings that options are written as and
//! the text of several names, and `specs/Stands.antt` which options settings can state. `pm_settings` reads and writes
//! them.
#![tactic(auto)]

mod copied;
mod kinds;
mod laws;
mod listed;
mod options;
mod pairs;
mod table;

pub use copied::Copied;
pub use kinds::{EngineKind, Function, Producer};
pub use laws::{read_law, written_law};
pub use listed::Listed;
pub use options::Options;
pub use pairs::Pair;
pub use table::{Form, Only};
