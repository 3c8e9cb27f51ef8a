//! How far the announcement of an expiry has come.

use pm_consumers::Lister;
use pm_read_expiry::Found;

/// What was announced: what was found, whose end is the floor's number; and the first snapshot that is kept, once the
/// consumers were read again.
#[derive(Drop)]
pub struct Announced {
    pub found: Found,
    pub end: u64,
}

/// How far the announcement has come: the next call creates the floor; or is one of the lister of consumers; or lists
/// the tags; or none is left, as the end is known; or the announcement ended before that.
#[derive(Drop)]
pub enum Phase {
    Announce { found: Found },
    Consumers { found: Found, consumers: Lister },
    Tags { announced: Announced },
    Announced { announced: Announced },
    Over,
}
