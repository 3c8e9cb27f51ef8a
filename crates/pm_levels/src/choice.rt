//! What a compaction is chosen by, and what is chosen.

/// How much a compaction is asked for.
#[derive(Clone, Copy)]
pub enum Asked {
    /// All runs.
    Full,
    /// What the sizes of the runs ask for, or else the runs of level 0.
    LevelZero,
    /// What the sizes of the runs ask for.
    No,
}

/// The options of a table by which runs are chosen.
#[derive(Clone, Copy)]
pub struct PickRule {
    /// How many runs there are before their sizes ask for a compaction.
    pub trigger: u32,
    /// From how many percent of the oldest run on the newer ones together are merged into it.
    pub amplification: u32,
    /// By how many percent of the runs that are taken the next one may exceed them and be taken, too.
    pub ratio: u32,
    /// How many levels there are, with level 0.
    pub levels: u32,
}

/// The choice of a compaction.
#[derive(Clone, Copy)]
pub struct Pick {
    /// How many runs are taken, the newest ones.
    pub take: usize,
    /// The level of the run that they become.
    pub out: u32,
}
