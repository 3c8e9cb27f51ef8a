//! The folders of groups: how long the texts of their values may be, and what holds of all their names.
//!
//! `exceeds_limit` tells whether the text of a partition's value is longer than names of folders have room for.
//! `folders_law` says that a group's folder lies within the table's, whatever its values are: cut at its slashes, its
//! path is one name for each partition column and one for the bucket, and each is a plain name (`specs/Names.antt`)
//! that file systems take. `one_group_law` says that a folder is one group's alone, and
//! `plain_names_law` that the names of partition columns have no slash. `folder_of` of `pm_schema` tells the path.
#![tactic(auto)]

mod laws;
mod limit;

pub use laws::{folders_law, one_group_law, plain_names_law};
pub use limit::{LONGEST_TEXT, exceeds_limit, is_too_long};
