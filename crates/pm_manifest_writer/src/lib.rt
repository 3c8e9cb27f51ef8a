//! Manifests and lists of them, written. What is written of their records is a definition of `pm_manifest`.
//!
//! What `write_list` writes is read as the same, and so is what `write_manifest` writes of entries that a manifest can
//! have.
#![tactic(auto)]

mod kind;
mod list_writer;
mod manifest_writer;
mod pushing;
mod statistics;

pub use list_writer::write_list;
pub use manifest_writer::write_manifest;
