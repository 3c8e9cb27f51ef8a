//! The table at a snapshot.

use crate::asked::Wanted;
use pm_levels::Levels;
use pm_manifest::{Entry, ManifestMeta};
use pm_schema::TableSchema;
use pm_snapshot::Snapshot;
use pm_values::Group;
use std::collections::BTreeMap;

/// The table at a snapshot.
#[derive(Drop)]
pub struct View {
    /// Which snapshot was asked for, and what of it.
    pub wanted: Wanted,
    /// The snapshot's id, 0 for the origin.
    pub id: u64,
    /// The snapshot, none for the origin.
    pub snapshot: Option<Snapshot>,
    /// The table's schema.
    pub schema: TableSchema,
    /// The ids of the snapshots that were listed, without the origin's, rising.
    pub listed: Vec<u64>,
    /// The runs of each group that has live files.
    pub groups: BTreeMap<Group, Levels>,
    /// The manifests of the base list, and then those of the delta list.
    pub manifests: Vec<ManifestMeta>,
    /// The entries of the live files, in the order in which they come, where they are asked for.
    pub live: Vec<Entry>,
}
