//! How far the reading of what an expiry needs to know has come.

use crate::asking::{Asking, Found, Listed};
use pm_consumers::Lister as ConsumerLister;
use pm_snapshots::Lister;

/// How far the reading has come: the next call lists the snapshots; or the floors; or is one of the lister of
/// consumers; or reads a snapshot, where this is the least that consumers read next; or all is known; or the reading
/// ended before that.
#[derive(Drop)]
pub enum Phase {
    Snapshots {
        asking: Asking,
        lister: Lister,
    },
    Floors {
        asking: Asking,
        lister: Lister,
    },
    Consumers {
        listed: Listed,
        consumers: ConsumerLister,
    },
    Times {
        listed: Listed,
        next: Option<u64>,
    },
    Ready {
        found: Found,
    },
    Over,
}
