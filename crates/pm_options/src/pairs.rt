//! Pairs of options that don't go together.

/// A pair of options that don't go together. A fault names the first of the two.
#[derive(Clone, Copy)]
pub enum Pair {
    /// The producer `input` with another engine than `deduplicate`.
    InputEngine,
    /// The producer `full-compaction` with `first-row`.
    FullFirstRow,
    /// Ignored deletes with `aggregation`.
    DeleteAggregation,
    /// An aggregate function with `partial-update`.
    FunctionPartialUpdate,
    /// Ignored retractions of a column with a function that takes them.
    RetractFunction,
}
