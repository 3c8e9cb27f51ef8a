//! The options of a table.

ghost use Rattle.std.specs.Prelude.{◌≡◌, IfOk};

use crate::copied::Copied;
use crate::kinds::{EngineKind, Function, Producer};
use crate::listed::Listed;
use pm_values::Txt;
use std::alloc::{AllocError, Global};

/// What a table's options say, with their defaults put in.
pub struct Options {
    /// The number of buckets.
    pub bucket: u32,
    pub engine: EngineKind,
    pub ignore_delete: bool,
    pub producer: Producer,
    pub row_deduplicate: bool,
    pub delta_commits: Option<u32>,
    /// The number of runs from which on a compaction is chosen.
    pub trigger: u32,
    pub levels: u32,
    /// In percent.
    pub amplification: u32,
    /// In percent.
    pub ratio: u32,
    pub merge_min: u32,
    pub retained_millis: u64,
    pub retained_min: u64,
    pub retained_max: u64,
    /// The aggregate functions that stand, by rising column.
    pub functions: Listed<(Txt, Function)>,
    pub delimiters: Listed<(Txt, Txt)>,
    pub ignore_retract: Listed<(Txt, bool)>,
    /// The sequence groups: the leading column, and the others.
    pub groups: Listed<(Txt, Listed<Txt>)>,
    /// All other settings, by rising key.
    pub kept: Listed<(Txt, Txt)>,
}

impl Drop for Options {
    fn drop(self) {
        let Options {
            bucket,
            engine,
            ignore_delete,
            producer,
            row_deduplicate,
            delta_commits,
            trigger,
            levels,
            amplification,
            ratio,
            merge_min,
            retained_millis,
            retained_min,
            retained_max,
            functions,
            delimiters,
            ignore_retract,
            groups,
            kept,
        } = self;
    }
}

impl Options {
    /// Equal options.
    pub fn copy(&self, alloc: Global) -> Result<Options, AllocError>
        ensures { IfOk result (λ o. o ≡ self.now) }
    {
        Ok(Options {
            bucket: self.bucket,
            engine: self.engine,
            ignore_delete: self.ignore_delete,
            producer: self.producer,
            row_deduplicate: self.row_deduplicate,
            delta_commits: self.delta_commits,
            trigger: self.trigger,
            levels: self.levels,
            amplification: self.amplification,
            ratio: self.ratio,
            merge_min: self.merge_min,
            retained_millis: self.retained_millis,
            retained_min: self.retained_min,
            retained_max: self.retained_max,
            functions: self.functions.copied(alloc)?,
            delimiters: self.delimiters.copied(alloc)?,
            ignore_retract: self.ignore_retract.copied(alloc)?,
            groups: self.groups.copied(alloc)?,
            kept: self.kept.copied(alloc)?,
        })
    }
}
