//! What the table of options has of each.

/// Which texts an option takes.
#[derive(Clone, Copy)]
pub enum Form {
    /// `avro` alone.
    Format,
    /// From 1 to the greatest number of buckets.
    Bucket,
    Engine,
    Producer,
    Truth,
    /// From the first number to the second.
    Number(u32, u32),
    Time,
}

/// The one text that an option that isn't supported takes.
#[derive(Clone, Copy)]
pub enum Only {
    Nothing,
    False,
    Avro,
}
