//! The store of a case.

ghost use Rattle.std.specs.Prelude.{◌≡◌, OnOk, IfErr};
ghost use Rattle.pm_store.specs.Lent.{lent_call};
ghost use Rattle.pm_store.specs.Store.{IsLater};
ghost use Rattle.pm_cases_commands.specs.Store.{case_seen, Refuses};

use crate::act::{act_before, apply_deed, put_file};
use pm_base::{Blob, Txt};
use pm_cases_lines::{Act, Deed};
use pm_store::{
    Call, Effect, FileStore, LentCall, Made, MemStore, Planned, Published, Removed, StoreFail,
    Swapped, perform,
};
use std::alloc::{AllocError, Global};

/// Files in memory. The calls of commands are numbered from 1, and the planned ones fail; what is put and taken between
/// commands has no number, and neither has what others do between the calls of a command.
pub struct CaseStore {
    files: MemStore,
    plan: Vec<Planned>,
    acts: Vec<Act>,
    first: u64,
    calls: u64,
    faults: u64,
}

impl Drop for CaseStore {
    fn drop(self) {
        let CaseStore {
            files,
            plan,
            acts,
            first,
            calls,
            faults,
        } = self;
    }
}

impl CaseStore {
    /// No files, and the calls that are to fail.
    pub fn new(alloc: Global, plan: Vec<Planned>) -> CaseStore {
        CaseStore {
            files: MemStore::new(alloc),
            plan,
            acts: Vec::new(alloc),
            first: 0,
            calls: 0,
            faults: 0,
        }
    }

    /// Does something to the files between commands.
    pub fn apply(&mut self, alloc: Global, deed: &Deed) -> Result<(), AllocError> {
        apply_deed(alloc, &mut self.files, deed)
    }

    /// Puts the files of another store in place.
    pub fn copy_files(&mut self, alloc: Global, other: &mut CaseStore) -> Result<(), AllocError> {
        for path in other.paths(alloc)? {
            if let Some(bytes) = other.find(alloc, path.as_str())? {
                put_file(alloc, &mut self.files, path.as_str(), bytes.as_bytes())?;
            }
        }
        Ok(())
    }

    /// Others act before a call of the next command.
    pub fn add_act(&mut self, act: Act) -> Result<(), AllocError> {
        self.acts.push(act)?;
        Ok(())
    }

    /// Begins a command: its calls are counted from 1.
    pub fn begin_command(&mut self) {
        self.first = self.calls;
    }

    /// Ends a command: what others would have done before later calls isn't done.
    pub fn end_command(&mut self) {
        self.acts.clear();
    }

    /// How many calls the last command made, or has made so far.
    pub fn command_calls(&self) -> u64 {
        self.calls.saturating_sub(self.first)
    }

    /// The names that stand right in a folder.
    pub fn list_names(&mut self, alloc: Global, folder: &str) -> Result<Vec<Txt>, AllocError> {
        self.files.list(alloc, folder).map_err(|_| AllocError)
    }

    /// The bytes of a file, or nothing where it isn't there.
    pub fn find(&mut self, alloc: Global, path: &str) -> Result<Option<Blob>, AllocError> {
        self.files.read(alloc, path).map_err(|_| AllocError)
    }

    /// All paths that a file was written at, each once, rising by their bytes.
    pub fn paths(&self, alloc: Global) -> Result<Vec<Txt>, AllocError> {
        let mut paths = Vec::new(alloc);
        for op in self.files.ops() {
            match &op.call {
                Call::Create { path, .. } | Call::Publish { path, .. } | Call::Swap { path, .. } =>
                    {
                        paths.push(path.copy(alloc)?)?;
                    }
                _ => {}
            }
        }
        paths.sort()?;
        paths.dedup();
        Ok(paths)
    }

    /// Counts a call of a command, lets others act, and fails where that is planned, after the planned effect.
    fn begin(&mut self, alloc: Global, call: LentCall) -> Result<(), StoreFail>
        ensures ok { OnOk result (self.new.faults ≡ self.old.faults) }
        ensures err { IfErr result (Refuses (lent_call call.entry) (case_seen self.old.faults)
            (case_seen self.new.faults)) }
        ensures later { IsLater (case_seen self.old.faults) (case_seen self.new.faults) }
    {
        self.calls = self.calls.saturating_add(1);
        let number = self.calls;
        let of_command = self.command_calls();
        act_before(alloc, &mut self.files, self.acts.as_slice(), of_command)?;
        match self.plan.iter().find(|planned| planned.call == number) {
            Some(planned) => {
                carry_out(alloc, &mut self.files, &call, &planned.effect)?;
                self.faults = self.faults.saturating_add(1);
                Err(StoreFail::Failed)
            }
            None => Ok(()),
        }
    }
}

/// Carries out as much of a call as the effect says: a part of a create of an absent path alone.
fn carry_out(
    alloc: Global,
    files: &mut MemStore,
    call: &LentCall,
    effect: &Effect,
) -> Result<(), AllocError> {
    let done = match (effect, call) {
        (Effect::Whole, _) => perform(alloc, files, call).map(|_| ()),
        (Effect::Part(Some(bytes)), LentCall::Create { path, .. }) => files
            .create(alloc, path.as_str(), bytes.as_bytes())
            .map(|_| ()),
        _ => Ok(()),
    };
    done.map_err(|_| AllocError)
}

impl FileStore for CaseStore {
    ghost seen = { λ s. case_seen s.faults };

    fn list(&mut self, alloc: Global, folder: &str) -> Result<Vec<Txt>, StoreFail> {
        self.begin(
            alloc,
            LentCall::List {
                folder: Txt::from_str(alloc, folder)?,
            },
        )?;
        self.files
            .list(alloc, folder)
            .map_err(|_| StoreFail::Memory)
    }

    fn read(&mut self, alloc: Global, path: &str) -> Result<Option<Blob>, StoreFail> {
        self.begin(
            alloc,
            LentCall::Read {
                path: Txt::from_str(alloc, path)?,
            },
        )?;
        self.files.read(alloc, path).map_err(|_| StoreFail::Memory)
    }

    fn create(&mut self, alloc: Global, path: &str, bytes: &[u8]) -> Result<Made, StoreFail> {
        self.begin(
            alloc,
            LentCall::Create {
                path: Txt::from_str(alloc, path)?,
                bytes,
            },
        )?;
        self.files
            .create(alloc, path, bytes)
            .map_err(|_| StoreFail::Memory)
    }

    fn publish(
        &mut self,
        alloc: Global,
        after: &str,
        path: &str,
        bytes: &[u8],
    ) -> Result<Published, StoreFail> {
        self.begin(
            alloc,
            LentCall::Publish {
                after: Txt::from_str(alloc, after)?,
                path: Txt::from_str(alloc, path)?,
                bytes,
            },
        )?;
        self.files
            .publish(alloc, after, path, bytes)
            .map_err(|_| StoreFail::Memory)
    }

    fn swap(
        &mut self,
        alloc: Global,
        path: &str,
        expected: Option<&[u8]>,
        bytes: &[u8],
    ) -> Result<Swapped, StoreFail> {
        self.begin(
            alloc,
            LentCall::Swap {
                path: Txt::from_str(alloc, path)?,
                expected,
                bytes,
            },
        )?;
        self.files
            .swap(alloc, path, expected, bytes)
            .map_err(|_| StoreFail::Memory)
    }

    fn remove(&mut self, alloc: Global, path: &str) -> Result<Removed, StoreFail> {
        self.begin(
            alloc,
            LentCall::Remove {
                path: Txt::from_str(alloc, path)?,
            },
        )?;
        self.files
            .remove(alloc, path)
            .map_err(|_| StoreFail::Memory)
    }
}
