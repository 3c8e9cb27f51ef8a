//! The calls that a double was asked for, and which of them are to fail.

use pm_folder_store::HostError;
use std::alloc::{AllocError, Global};

/// A call of the host.
#[derive(Clone, Copy)]
pub enum Act {
    Look,
    Names,
    Open,
    Make,
    Read,
    Write,
    CopyMode,
    SetChanged,
    Sync,
    Lock,
    Share,
    Unlock,
    Rename,
    RemoveFile,
    CreateDir,
    RemoveDir,
    Clock,
}

impl Act {
    /// The word for a call.
    fn word(self) -> &'static str {
        match self {
            Act::Look => "look",
            Act::Names => "names",
            Act::Open => "open",
            Act::Make => "make",
            Act::Read => "read",
            Act::Write => "write",
            Act::CopyMode => "mode",
            Act::SetChanged => "date",
            Act::Sync => "sync",
            Act::Lock => "lock",
            Act::Share => "share",
            Act::Unlock => "unlock",
            Act::Rename => "rename",
            Act::RemoveFile => "unlink",
            Act::CreateDir => "mkdir",
            Act::RemoveDir => "rmdir",
            Act::Clock => "clock",
        }
    }

    /// Whether a power loss may leave something else after the call than before it.
    fn is_change(self) -> bool {
        matches!(
            self,
            Act::Make
                | Act::Write
                | Act::Sync
                | Act::Rename
                | Act::RemoveFile
                | Act::CreateDir
                | Act::RemoveDir
        )
    }

    /// Whether the call is one that changes something, has it on the disk, or concerns a lock.
    fn is_told(self) -> bool {
        self.is_change()
            || matches!(
                self,
                Act::CopyMode | Act::SetChanged | Act::Lock | Act::Share | Act::Unlock
            )
    }
}

/// What came of a call: it failed as planned, it was refused by what it found, or it was done.
#[derive(Clone, Copy)]
pub enum End {
    Failed,
    Refused,
    Done,
}

/// A call with its number, its path, of a rename both, and what came of it.
pub struct Step {
    number: u64,
    act: Act,
    path: String,
    to: String,
    pub(crate) end: End,
}

impl Drop for Step {
    fn drop(self) {
        let Step {
            number,
            act,
            path,
            to,
            end,
        } = self;
    }
}

impl Step {
    /// A call that was refused so far.
    pub(crate) fn new(
        alloc: Global,
        number: u64,
        act: Act,
        path: &str,
        to: &str,
    ) -> Result<Step, AllocError> {
        Ok(Step {
            number,
            act,
            path: String::from_str(alloc, path)?,
            to: String::from_str(alloc, to)?,
            end: End::Refused,
        })
    }

    /// The number of the call.
    pub fn number(&self) -> u64 {
        self.number
    }

    /// Whether the call was done, and a power loss may leave something else after it than before it.
    pub fn is_change(&self) -> bool {
        self.is_done() && self.act.is_change()
    }

    /// Whether the call was done, and changes something, has it on the disk, or concerns a lock.
    pub fn is_told(&self) -> bool {
        self.is_done() && self.act.is_told()
    }

    /// Whether the call was done.
    fn is_done(&self) -> bool {
        matches!(self.end, End::Done)
    }

    /// Whether the call failed as planned.
    pub fn is_failed(&self) -> bool {
        matches!(self.end, End::Failed)
    }

    /// Whether the call asked for the lock of what is at a path, and it wasn't given.
    pub(crate) fn is_refused_lock(&self, path: &str) -> bool {
        matches!(self.act, Act::Lock | Act::Share)
            && matches!(self.end, End::Refused)
            && self.path.as_str() == path
    }

    /// The word for the call, and its path; the table's folder is left out.
    pub fn text(&self, alloc: Global) -> Result<String, AllocError> {
        let word = self.act.word();
        let path = below_table(self.path.as_str());
        if path.is_empty() {
            return String::from_str(alloc, word);
        }
        if self.to.is_empty() {
            return format!(in alloc; "{word} {path}");
        }
        let to = below_table(self.to.as_str());
        format!(in alloc; "{word} {path} {to}")
    }
}

/// A path below the table's folder; any other one as it is.
fn below_table(path: &str) -> &str {
    path.strip_prefix("t/").unwrap_or(path)
}

/// Which calls fail, by their numbers, with which kind of error, and before which one a rival acts, if not 0. A failed
/// write leaves half of what it was given, and a failed read gives half of what is there, unless the process was
/// stopped: then no call does anything any more.
#[derive(Clone, Copy)]
pub struct Plan {
    first: u64,
    last: u64,
    pub(crate) error: HostError,
    pub(crate) is_stopped: bool,
    pub(crate) meets_at: u64,
}

impl Plan {
    /// No call fails.
    pub fn healthy() -> Plan {
        Plan {
            first: u64::MAX,
            last: 0,
            error: HostError::Other,
            is_stopped: false,
            meets_at: 0,
        }
    }

    /// The process is stopped after so many calls.
    pub fn stop(calls: u64) -> Plan {
        Plan {
            first: calls.saturating_add(1),
            last: u64::MAX,
            error: HostError::Other,
            is_stopped: true,
            meets_at: 0,
        }
    }

    /// One call fails.
    pub fn once(call: u64, error: HostError) -> Plan {
        Plan {
            first: call,
            last: call,
            error,
            is_stopped: false,
            meets_at: 0,
        }
    }

    /// One call and all later ones fail.
    pub fn from(call: u64, error: HostError) -> Plan {
        Plan {
            first: call,
            last: u64::MAX,
            error,
            is_stopped: false,
            meets_at: 0,
        }
    }

    /// A rival acts before a call.
    pub fn met_at(call: u64) -> Plan {
        let mut plan = Plan::healthy();
        plan.meets_at = call;
        plan
    }

    /// Whether the call of a number fails.
    pub(crate) fn fails(&self, call: u64) -> bool {
        self.first <= call && call <= self.last
    }
}
