//! What is asked for.

/// So many batches, of so many rows each, and the seed that they are drawn from.
#[derive(Clone, Copy)]
pub struct Drawing {
    pub batches: u64,
    pub rows: u64,
    pub seed: u64,
}
