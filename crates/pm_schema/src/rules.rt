//! The rules of schemas.

/// A rule of schemas.
#[derive(Clone, Copy)]
pub enum Rule {
    /// Each name is one.
    Names,
    /// No two columns have one name.
    Distinct,
    /// The primary key has columns, all different and NOT NULL.
    Primary,
    /// The partition has columns of the primary key, all different, and not all of them.
    Partition,
    /// No two columns have one id, and none is above the greatest.
    Ids,
    /// The options of columns name columns outside the primary key.
    Fields,
    /// Aggregate functions fit their columns.
    Functions,
    /// Null may stand in each column outside the primary key.
    Nulls,
    /// The greatest number of retained snapshots isn't below the least.
    Retained,
}
