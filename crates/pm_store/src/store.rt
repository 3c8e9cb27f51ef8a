//! The trait of a store.

ghost use Rattle.std.specs.Prelude.{◌≡◌, ◌↔◌, IsTrue};
ghost use Rattle.std.specs.Option.{option_copied};
ghost use Rattle.pm_store.specs.declared.call.Call.TheVariants as calls;
ghost use Rattle.pm_store.specs.declared.answer.Answer.TheVariants as answers;
ghost use Rattle.pm_store.specs.declared.store.StoreFail.TheVariants.{Memory};

use crate::{Made, Published, Removed, Swapped};
use pm_base::{Blob, Txt};
use std::alloc::{AllocError, AllocFailed, Global};

/// Why a call of a store gave no answer: out of memory, which changes nothing, or a fault.
#[derive(Clone, Copy)]
pub enum StoreFail {
    Memory,
    Failed,
}

impl From<AllocError> for StoreFail {
    ghost from_gives = { λ _ e. e ≡ Memory };

    fn from(_: AllocError) -> Self {
        StoreFail::Memory
    }
}

impl<T: Drop> From<AllocFailed<T>> for StoreFail {
    ghost from_gives = { λ _ e. e ≡ Memory };

    fn from(_: AllocFailed<T>) -> Self {
        StoreFail::Memory
    }
}

/// Files by their paths. A path is relative, and its folders end at each `/`; the folder of the store
/// itself has the empty path. Each call is one atomic step, and what it answered outlives a crash: a change
/// that succeeded, as well as what a read or a list found. From a loss of power a store may except files that are
/// reached only by their names in other files, until the next change elsewhere was answered.
pub trait FileStore {
    ghost use Rattle.pm_store.specs.Answers.{Tells};
    ghost use Rattle.pm_store.specs.Store.{StoreView, IsLater};

    /// Its operations, each its own or another's, and how often a call failed.
    ghost seen: { Self → StoreView };

    /// What stands right in a folder, files and folders alike, by name and in the order of the names' bytes. Of a
    /// folder that is absent there is nothing.
    fn list(&mut self, alloc: Global, folder: &str) -> Result<Vec<Txt>, StoreFail>
        ensures answer { Tells (calls.List folder.now) answers.Listed (seen self.old) (seen self.new) result }
        ensures later { IsLater (seen self.old) (seen self.new) };

    /// The bytes at a path, or nothing where it is absent.
    fn read(&mut self, alloc: Global, path: &str) -> Result<Option<Blob>, StoreFail>
        ensures answer { Tells (calls.Read path.now) answers.Found (seen self.old) (seen self.new) result }
        ensures later { IsLater (seen self.old) (seen self.new) };

    /// Writes the path where it is absent.
    fn create(&mut self, alloc: Global, path: &str, bytes: &[u8]) -> Result<Made, StoreFail>
        ensures answer { Tells (calls.Create path.now bytes.now) answers.Made
            (seen self.old) (seen self.new) result }
        ensures later { IsLater (seen self.old) (seen self.new) };

    /// Writes an absent path, provided that the file `after` is there.
    fn publish(
        &mut self,
        alloc: Global,
        after: &str,
        path: &str,
        bytes: &[u8],
    ) -> Result<Published, StoreFail>
        ensures answer { Tells (calls.Publish after.now path.now bytes.now) answers.Published
            (seen self.old) (seen self.new) result }
        ensures later { IsLater (seen self.old) (seen self.new) };

    /// Writes a path that has the expected content, or that is absent where nothing is expected.
    fn swap(
        &mut self,
        alloc: Global,
        path: &str,
        expected: Option<&[u8]>,
        bytes: &[u8],
    ) -> Result<Swapped, StoreFail>
        ensures answer { Tells (calls.Swap path.now (option_copied expected.entry) bytes.now) answers.Swapped
            (seen self.old) (seen self.new) result }
        ensures later { IsLater (seen self.old) (seen self.new) };

    /// Takes the path away.
    fn remove(&mut self, alloc: Global, path: &str) -> Result<Removed, StoreFail>
        ensures answer { Tells (calls.Remove path.now) answers.Removed (seen self.old) (seen self.new) result }
        ensures later { IsLater (seen self.old) (seen self.new) };
}

/// Whether what was found is what is expected.
pub fn is_expected(found: Option<&Blob>, expected: Option<&[u8]>) -> bool
    ensures { IsTrue result ↔ (option_copied found.entry ≡ option_copied expected.entry) }
{
    match (found, expected) {
        (Some(found), Some(expected)) => found.as_bytes() == expected,
        (None, None) => true,
        _ => false,
    }
}
