//! The rows of each group among the rows of a table.
//!
//! `cut_by_group` gives of packed rows those of each group that has some, in their order, their numbers counted from 0
//! (`specs/Cut.antt`): each row lies in the partition of its own values and in the bucket of its key's hash, as
//! `group_of` of `pm_model_following` has it. It takes one pass over the rows. All rows of a table without partition
//! columns that has one bucket lie in one group: they are neither hashed nor copied. Keys that are one BIGINT beside
//! the partition are hashed many at once, others one by one. `exceeds_partition` tells whether a row lies in a
//! partition of whose values one has too long a text (`specs/Limit.antt`). `groups_law` says that the group of a row that
//! fits has a folder, and that its bucket is one of the table's.
#![tactic(auto)]

mod buckets;
mod columns;
mod cut;
mod laws;
mod limit;

pub use columns::partition_of;
pub use cut::cut_by_group;
pub use laws::groups_law;
pub use limit::exceeds_partition;
