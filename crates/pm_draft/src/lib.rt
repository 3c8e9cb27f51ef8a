//! What the command `create` takes from its input: the draft of a table.
//!
//! The definitions stand in `specs/Draft.antt` (the schema of an input's lines, and what is refused first) and
//! `specs/Input.antt` (what reading an input answers).
#![tactic(auto)]

mod draft;
mod input;
mod laws;

pub use input::read_draft_input;
pub use laws::{draft_line_law, first_schema_law};
