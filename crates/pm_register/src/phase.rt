//! How far the registering of a consumer has come.

use pm_base::{Blob, Txt};

/// What is put where: the path of the consumer's file, the snapshot that it reads next, and the bytes of the file while
/// the consumer is new and once it is settled.
#[derive(Drop)]
pub struct Registration {
    pub path: Txt,
    pub next: u64,
    pub fresh: Blob,
    pub known: Blob,
}

/// How far the registering has come: the next call makes the consumer new, from what was found at its path; or lists
/// the floors; or settles it; or it is settled; or the registering ended before that.
#[derive(Drop)]
pub enum Phase {
    New {
        found: Option<Blob>,
        registration: Registration,
    },
    Floors {
        registration: Registration,
    },
    Settle {
        registration: Registration,
    },
    Settled,
    Over,
}
