//! How far the reading of a schema has come.

use pm_schema::TableSchema;

/// How far the reading of a schema has come: its next call lists the schemas, or reads the one with that id, or lists
/// the snapshots, since the schema names no origin; or the schema is ready; or the reading ended before that.
#[derive(Drop)]
pub enum Phase {
    Schemas,
    Schema { id: u64 },
    Snapshots { schema: TableSchema },
    Ready { schema: TableSchema },
    Over,
}
