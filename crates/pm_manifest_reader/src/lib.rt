//! Manifests and lists of them, read. What a file of either is read as is a definition of `pm_manifest`.
#![tactic(auto)]

mod field_values;
mod list_reader;
mod manifest_reader;

pub use list_reader::read_list;
pub use manifest_reader::{read_manifest, read_manifest_by};
