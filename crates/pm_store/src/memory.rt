//! A store in memory, which keeps all its operations.

ghost use Rattle.std.specs.Prelude.{◌≡◌, [], ◌∷◌, ◌++◌, Some, OnOk, OnErr, IfOk};
ghost use Rattle.pm_store.specs.Answers.{Answers, MayAnswer};
ghost use Rattle.pm_store.specs.Failing.{allowed};
ghost use Rattle.pm_store.specs.Files.{files_after};
ghost use Rattle.pm_store.specs.Store.{IsLater, mem_seen, whole};

use crate::files::FileMap;
use crate::{Answer, Call, Effect, FileStore, Made, Op, Published, Removed, StoreFail, Swapped};
use pm_base::{Blob, Txt};
use std::alloc::{AllocError, Global};
use std::marker::Model;

/// A store that never fails, seen as the list of its operations. It answers from an index of the files.
pub struct MemStore {
    files: FileMap,
    ops: Vec<Op>,
}

impl Drop for MemStore {
    fn drop(self) {
        let MemStore { files, ops } = self;
    }
}

impl Model for MemStore {
    ghost use Rattle.std.specs.Prelude.{◌≡◌, List};
    ghost use Rattle.pm_store.specs.declared.call.Op.{Op};
    ghost use Rattle.pm_store.specs.Files.{files_after};

    ghost Value = { List Op };

    ghost view = { λ m. m.ops.items };

    ghost invariant = { λ m. m.files ≡ files_after m.ops.items };
}

impl MemStore {
    /// A store without files.
    pub fn new(alloc: Global) -> MemStore
        ensures { result ≡ [] }
    {
        MemStore {
            files: FileMap::new(alloc),
            ops: Vec::new(alloc),
        }
    }

    /// All operations, the first one first.
    pub fn ops(&self) -> &[Op]
        ensures { result.now ≡ self.now }
    {
        self.ops.as_slice()
    }

    /// What a call answers where it comes after the operations.
    pub(crate) fn answer(&self, alloc: Global, call: &Call) -> Result<Answer, AllocError>
        ensures answer { IfOk result (λ answer. Answers call.now answer (files_after self.now)) }
        ensures may { IfOk result (λ answer. MayAnswer call.now answer) }
    {
        self.files.answer(alloc, call)
    }

    /// Carries out as much of a call as the operation says, and keeps it.
    pub(crate) fn record(&mut self, alloc: Global, op: Op) -> Result<(), AllocError>
        ensures ok { OnOk result (self.new ≡ self.old ++ op ∷ []) }
        ensures err { OnErr result (self.new ≡ self.old) }
    {
        self.ops.reserve(1)?;
        self.files.apply(alloc, &op)?;
        match self.ops.push(op) {
            Ok(()) => Ok(()),
            Err(_) => unreachable!(),
        }
    }

    /// How much of a call is carried out where it is to fail with this effect.
    pub(crate) fn allowed(&self, call: &Call, effect: Effect) -> Effect
        ensures { result ≡ allowed call.now effect (files_after self.now) }
    {
        match effect {
            Effect::Part(found) => match call {
                Call::Create { path, .. } if self.files.get(path).is_none() => Effect::Part(found),
                _ => Effect::None,
            },
            effect => effect,
        }
    }

    /// Makes a call.
    pub(crate) fn make(&mut self, alloc: Global, call: Call) -> Result<Answer, AllocError>
        ensures ok { OnOk result (self.new ≡ self.old ++ whole call ∷ []) }
        ensures answer { IfOk result (λ answer. Answers call answer (files_after self.old)) }
        ensures may { IfOk result (λ answer. MayAnswer call answer) }
        ensures err { OnErr result (self.new ≡ self.old) }
        ensures later { IsLater (mem_seen self.old) (mem_seen self.new) }
    {
        let answer = self.answer(alloc, &call)?;
        self.record(alloc, Op::whole(call))?;
        Ok(answer)
    }
}

impl FileStore for MemStore {
    ghost seen = { mem_seen };

    fn list(&mut self, alloc: Global, folder: &str) -> Result<Vec<Txt>, StoreFail> {
        match self.make(alloc, Call::list(alloc, folder)?)? {
            Answer::Listed(names) => Ok(names),
            _ => unreachable!(),
        }
    }

    fn read(&mut self, alloc: Global, path: &str) -> Result<Option<Blob>, StoreFail> {
        match self.make(alloc, Call::read(alloc, path)?)? {
            Answer::Found(found) => Ok(found),
            _ => unreachable!(),
        }
    }

    fn create(&mut self, alloc: Global, path: &str, bytes: &[u8]) -> Result<Made, StoreFail> {
        match self.make(alloc, Call::create(alloc, path, bytes)?)? {
            Answer::Made(made) => Ok(made),
            _ => unreachable!(),
        }
    }

    fn publish(
        &mut self,
        alloc: Global,
        after: &str,
        path: &str,
        bytes: &[u8],
    ) -> Result<Published, StoreFail> {
        match self.make(alloc, Call::publish(alloc, after, path, bytes)?)? {
            Answer::Published(published) => Ok(published),
            _ => unreachable!(),
        }
    }

    fn swap(
        &mut self,
        alloc: Global,
        path: &str,
        expected: Option<&[u8]>,
        bytes: &[u8],
    ) -> Result<Swapped, StoreFail> {
        match self.make(alloc, Call::swap(alloc, path, expected, bytes)?)? {
            Answer::Swapped(swapped) => Ok(swapped),
            _ => unreachable!(),
        }
    }

    fn remove(&mut self, alloc: Global, path: &str) -> Result<Removed, StoreFail> {
        match self.make(alloc, Call::remove(alloc, path)?)? {
            Answer::Removed(removed) => Ok(removed),
            _ => unreachable!(),
        }
    }
}
