//! What machines ask of a table's folder: the paths of its files, and the ids in the names that a listing has.
//!
//! Each call of `src/paths.rt` is equal to the definition of its name in `pm_model_folder` or `pm_model_contents`.
//! `specs/Ids.antt` says of which snapshots names are, and which of these is the latest.
#![tactic(auto)]

mod ids;
mod paths;

pub use ids::{ids_of, latest_of};
pub use paths::{manifest_path, origin_path, schema_path, snapshot_file, snapshot_path};
