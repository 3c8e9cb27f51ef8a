//! The files of snapshots and of consumers, both ways, and the names of the table's files.
//!
//! Contracts see `Snapshot` and `Consumer` as the records of their fields. What a file says and how it
//! is written stand in `specs/Snapshot.antt` and `specs/Consumer.antt`, the properties of a snapshot in
//! `specs/Properties.antt`, decimal texts in `specs/Decimal.antt`, and names in `specs/Names.antt`.
#![tactic(auto)]

mod commit_kind;
mod consumer;
mod decimal;
mod fault;
mod field;
mod laws;
mod names;
mod parts;
mod properties;
mod snapshot;
mod write;

pub use commit_kind::CommitKind;
pub use consumer::{Consumer, read_consumer, write_consumer};
pub use fault::SnapFault;
pub use laws::{base_law, consumer_law, decimal_law, name_law, path_law, snapshot_law};
pub use names::{base_of_name, floor_of_name, id_of_name, number_after, snapshot_name};
pub use snapshot::{Snapshot, read_snapshot};
pub use write::write_snapshot;
