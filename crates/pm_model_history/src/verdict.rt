//! What becomes of a row.

/// What a table's engine makes of a row by its kind.
#[derive(Clone, Copy)]
pub enum Verdict {
    /// The row becomes part of the history.
    Take,
    /// The row has no effect.
    Ignore,
    /// The row is refused because of the column at the index.
    Refuse(usize),
    /// The row is refused as a whole.
    RefuseAll,
}
