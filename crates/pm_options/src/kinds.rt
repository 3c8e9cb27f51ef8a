//! Merge engines, changelog producers and aggregate functions.

/// How the rows of a key become one.
#[derive(Clone, Copy)]
pub enum EngineKind {
    Deduplicate,
    PartialUpdate,
    Aggregation,
    FirstRow,
}

/// Where a table's changelog comes from.
#[derive(Clone, Copy)]
pub enum Producer {
    None,
    Input,
    Lookup,
    FullCompaction,
}

/// How a column's values become one.
#[derive(Clone, Copy)]
pub enum Function {
    Sum,
    Max,
    Min,
    LastValue,
    LastNonNullValue,
    FirstValue,
    FirstNonNullValue,
    ListAgg,
    BoolAnd,
    BoolOr,
}
