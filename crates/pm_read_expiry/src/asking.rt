//! What an expiry asks for, what was listed for it, and what it found.

use pm_base::Txt;
use pm_expire_end::Keep;
use pm_schema::TableSchema;
use pm_snapshots::Lister;

/// What an expiry asks for: the table with this schema, what is to be kept of its snapshots, and the present moment, in
/// milliseconds from 1970-01-01.
#[derive(Drop)]
pub struct Asking {
    pub schema: TableSchema,
    pub keep: Keep,
    pub now: i64,
}

/// What was listed for it: the snapshots, by their lister, and the names of the floors.
#[derive(Drop)]
pub struct Listed {
    pub asking: Asking,
    pub lister: Lister,
    pub floors: Vec<Txt>,
}

/// What it found: the first snapshot that counts and the last, both 0 where there is none; the first that is kept; and
/// the names of the floors.
#[derive(Drop)]
pub struct Found {
    pub schema: TableSchema,
    pub first: u64,
    pub last: u64,
    pub end: u64,
    pub floors: Vec<Txt>,
}
