//! A table as a try finds it.

use pm_made::Newest;
use pm_schema::TableSchema;

/// The table's schema, and its newest snapshot.
#[derive(Drop)]
pub struct Found {
    pub(crate) schema: TableSchema,
    pub(crate) newest: Newest,
}
