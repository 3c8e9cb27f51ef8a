//! Schemas as texts: their files and drafts are read, and their files written.
//!
//! What a text declares, its first fault and the text of a schema are definitions of `pm_schema`.
//! `specs/Shape.antt` and `specs/Parts.antt` say what parts of JSON are read as.
#![tactic(auto)]

mod column_type;
mod read;
mod rules;
mod shape;
mod stated;
mod write;

pub use read::{read_draft, read_schema};
pub use write::write_schema;
