//! A store on a real folder. What it does to the folder is trusted, and no clause tells of it.

ghost use Rattle.std.specs.Prelude.{◌≡◌, ◌≤◌, None, IfOk, IsErrOf, OnOk};
ghost use Rattle.std.specs.Option.{option_copied};
ghost use Rattle.pm_base.specs.Faults.{Rose};

use crate::disk::{Condition, Disk, Verdict};
use crate::host::Host;
use pm_base::{Blob, Txt};
use pm_store::{FileStore, Made, Published, Removed, StoreFail, Swapped};
use std::alloc::Global;
use std::marker::Model;

/// A store on a folder, seen as its count of faults. Its lock file and its temporary files have names that begin
/// with a dot, and no file of the store has one.
pub struct FolderStore<H: Host + Drop> {
    disk: Disk<H>,
    faults: u64,
}

impl<H: Host + Drop> Drop for FolderStore<H> {
    fn drop(self) {
        let FolderStore { disk, faults } = self;
    }
}

impl<H: Host + Drop> Model for FolderStore<H> {
    ghost use Rattle.std.specs.Prelude.{ℕ};

    ghost Value = { ℕ };

    ghost view = { λ s. s.faults };
}

impl<H: Host + Drop> FolderStore<H> {
    /// A store on a folder. One that isn't there has no files, where its parent is a folder; nothing is made.
    pub fn open(alloc: Global, host: H, folder: &str) -> Result<FolderStore<H>, StoreFail>
        ensures { IfOk result (λ s. s ≡ 0) }
    {
        Ok(FolderStore {
            disk: Disk::open(alloc, host, folder)?,
            faults: 0,
        })
    }
}

impl<H: Host + Drop> FileStore for FolderStore<H> {
    ghost seen = { λ s. record { ops = None; faults = s } };

    fn list(&mut self, alloc: Global, folder: &str) -> Result<Vec<Txt>, StoreFail> {
        let answer = self.disk.list(alloc, folder);
        counted(&mut self.faults, answer)
    }

    fn read(&mut self, alloc: Global, path: &str) -> Result<Option<Blob>, StoreFail> {
        let answer = self.disk.read(alloc, path);
        counted(&mut self.faults, answer)
    }

    fn create(&mut self, alloc: Global, path: &str, bytes: &[u8]) -> Result<Made, StoreFail> {
        let answer = self.disk.put(alloc, path, Condition::Absent, bytes);
        match counted(&mut self.faults, answer)? {
            Verdict::Write => Ok(Made::Created),
            _ => Ok(Made::Exists),
        }
    }

    fn publish(
        &mut self,
        alloc: Global,
        after: &str,
        path: &str,
        bytes: &[u8],
    ) -> Result<Published, StoreFail> {
        let condition = Condition::AbsentAfter(after);
        let answer = self.disk.put(alloc, path, condition, bytes);
        match counted(&mut self.faults, answer)? {
            Verdict::Write => Ok(Published::Created),
            Verdict::AfterGone => Ok(Published::AfterGone),
            _ => Ok(Published::Exists),
        }
    }

    fn swap(
        &mut self,
        alloc: Global,
        path: &str,
        expected: Option<&[u8]>,
        bytes: &[u8],
    ) -> Result<Swapped, StoreFail> {
        let condition = Condition::Is(expected);
        let answer = self.disk.put(alloc, path, condition, bytes);
        match counted(&mut self.faults, answer)? {
            Verdict::Differs(found) => Ok(Swapped::Differs(found)),
            _ => Ok(Swapped::Swapped),
        }
    }

    fn remove(&mut self, alloc: Global, path: &str) -> Result<Removed, StoreFail> {
        let answer = self.disk.remove(alloc, path);
        if counted(&mut self.faults, answer)? {
            return Ok(Removed::Removed);
        }
        Ok(Removed::Absent)
    }
}

/// The answer, with its fault counted. The count stands still at its last value.
fn counted<T>(faults: &mut u64, answer: Result<T, StoreFail>) -> Result<T, StoreFail>
    ensures same { result ≡ answer }
    ensures failed { IsErrOf result StoreFail.Failed → Rose faults.old faults.new }
    ensures later { faults.old ≤ faults.new }
{
    if let Err(StoreFail::Failed) = &answer {
        *faults = faults.saturating_add(1);
    }
    answer
}
