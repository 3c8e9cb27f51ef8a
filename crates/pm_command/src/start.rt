//! What a command is given beside its words.

/// Whose names a command makes, and when it begins: the sixteen bytes of its session, its number as an actor there, and
/// the moment in milliseconds from 1970-01-01T00:00:00.
#[derive(Clone, Copy)]
pub struct Start {
    pub session: [u8; 16],
    pub number: u32,
    pub now_millis: i64,
}
