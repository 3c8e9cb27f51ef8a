//! What a commit did.

/// The kind of a commit. `Append` and `Compact` are this program's own; the other two are read.
#[derive(Clone, Copy)]
pub enum CommitKind {
    Append,
    Compact,
    Overwrite,
    Analyze,
}
