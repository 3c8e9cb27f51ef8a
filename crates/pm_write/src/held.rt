//! The rows of a group, kept from one try to the next.

use pm_changelog::GroupLog;
use pm_packed::PackedRows;
use pm_values::Group;

/// The rows of a group that the table took.
pub(crate) struct HeldRows {
    pub(crate) group: Group,
    /// How many they are.
    pub(crate) count: u64,
    /// The stored row of each key, by rising key. Their numbers count the group's rows from 0.
    pub(crate) run: PackedRows,
    /// What its changelog file is to tell.
    pub(crate) log: GroupLog,
}

impl Drop for HeldRows {
    fn drop(self) {
        let HeldRows {
            group,
            count,
            run,
            log,
        } = self;
    }
}
