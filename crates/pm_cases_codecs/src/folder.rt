//! The folders of groups.

use crate::text::say_text;
use pm_cases::Case;
use pm_schema::{TableSchema, folder_of};
use pm_values::{Group, Row};

/// The folder of the group of a bucket in a table without partition columns.
pub fn answer(case: &mut Case, schema: &TableSchema, bucket: &str) {
    let bucket = case.small(bucket);
    if !schema.partition.as_slice().is_empty() {
        return case.reject();
    }
    let group = Group {
        partition: Row::new(Vec::new(case.alloc())),
        bucket,
    };
    let folder = folder_of(case.alloc(), schema, &group);
    drop(group);
    say_text(case, folder);
}
