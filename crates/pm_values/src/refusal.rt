//! Why a command was refused.

ghost use Rattle.std.specs.Prelude.{◌≡◌};
ghost use Rattle.pm_values.specs.declared.refusal.Refusal.TheVariants.{Memory};

use pm_base::{Blob, Txt};
use std::alloc::{AllocError, AllocFailed};

/// What is wrong with a line: the first fault in this order. `Draft` and `Script` are faults of
/// the lines of a table's draft and of a script, which have no others but `Json`.
#[derive(Clone, Copy)]
pub enum Why {
    Json,
    Array,
    Kind,
    Count,
    Null,
    Type,
    Range,
    Draft,
    Script,
}

/// Why a command was refused. The exit status is the number that each variant's line begins with.
pub enum Refusal {
    /// `E1`: there was no memory left.
    Memory,
    /// `E2`: the words are no command; the first word, or nothing.
    Words { command: Txt },
    /// `E3`: the source of the input failed.
    SourceFault,
    /// `E4`: the sink of the output failed, after the commit of that snapshot where there is one.
    SinkFault { snapshot: Option<u64> },
    /// `E5`: the store failed at that path.
    StoreFault { path: Txt },
    /// `E6`: the first bad line, counted from 1, what is wrong with it, and the column's name or nothing.
    BadLine { line: u64, why: Why, column: Txt },
    /// `E7`: the engine refuses a row: the first such line, counted from 1, and the column's name.
    Retraction { line: u64, column: Txt },
    /// `E8`: the table was created by another command.
    TableExists,
    /// `E9`: the folder has no table.
    NoTable,
    /// `E10`: a file, a type or an option has a text that isn't supported; what it is of, and the text.
    Unsupported { what: Txt, text: Txt },
    /// `E11`: the file at that path isn't what it has to be, at that offset in bytes.
    Damaged { path: Txt, place: u64 },
    /// `E12`: the asked snapshot is after the latest; both ids.
    NoSnapshot { id: u64, latest: u64 },
    /// `E13`: the snapshot is expired; its id, or 0 where no greater one was listed.
    Expired { id: u64 },
    /// `E14`: eleven tries each found another commit; the ids that they tried.
    Contended { ids: [u64; 11] },
    /// `E15`: a file that the compaction chose isn't live at the newest snapshot; the first such file.
    CompactTaken { file: Txt },
    /// `E16`: the base is at most the fence of the newest snapshot.
    Fenced { base: u64, fence: i64 },
    /// `E17`: the floor of an expiry is above the next snapshot of a consumer; the greatest such floor.
    BelowFloor { next: u64, floor: u64 },
    /// `E18`: the file of a consumer has other bytes than this command left there, or is absent; what was found.
    ConsumerMoved { found: Option<Blob> },
    /// `E19`: the table keeps no changelog that could be followed.
    NoChangelog,
    /// `E20`: the session and the actor have named a file before; the first such path.
    SessionUsed { path: Txt },
    /// `E21`: a counted quantity would exceed its limit; which one, and the limit.
    Limit { which: Txt, number: u64 },
    /// `E22`: a schema breaks a rule; the number of the first one.
    SchemaRule { rule: u32 },
}

impl Drop for Refusal {
    fn drop(self) {
        match self {
            Refusal::Memory => {}
            Refusal::Words { command } => {}
            Refusal::SourceFault => {}
            Refusal::SinkFault { snapshot } => {}
            Refusal::StoreFault { path } => {}
            Refusal::BadLine { line, why, column } => {}
            Refusal::Retraction { line, column } => {}
            Refusal::TableExists => {}
            Refusal::NoTable => {}
            Refusal::Unsupported { what, text } => {}
            Refusal::Damaged { path, place } => {}
            Refusal::NoSnapshot { id, latest } => {}
            Refusal::Expired { id } => {}
            Refusal::Contended { ids } => {}
            Refusal::CompactTaken { file } => {}
            Refusal::Fenced { base, fence } => {}
            Refusal::BelowFloor { next, floor } => {}
            Refusal::ConsumerMoved { found } => {}
            Refusal::NoChangelog => {}
            Refusal::SessionUsed { path } => {}
            Refusal::Limit { which, number } => {}
            Refusal::SchemaRule { rule } => {}
        }
    }
}

impl From<AllocError> for Refusal {
    ghost from_gives = { λ _ e. e ≡ Memory };

    fn from(_e: AllocError) -> Refusal {
        Refusal::Memory
    }
}

impl<T: Drop> From<AllocFailed<T>> for Refusal {
    ghost from_gives = { λ _ e. e ≡ Memory };

    fn from(_e: AllocFailed<T>) -> Refusal {
        Refusal::Memory
    }
}
