//! Files in memory, as an index of a store.

ghost use Rattle.std.specs.Prelude.{◌≡◌, IfOk, OnOk, OnErr, is_none, if◌then◌else◌};
ghost use Rattle.std.specs.FinMap as map;
ghost use Rattle.std.specs.Option.{option_copied};
ghost use Rattle.pm_store.specs.Answers.{Answers, made_at, published_at, Swaps, removed_at};
ghost use Rattle.pm_store.specs.Files.{after_op, carried, cut, IsListing};

use crate::names::names_in;
use crate::store::is_expected;
use crate::{Answer, Call, Effect, Made, Op, Published, Removed, Swapped};
use pm_base::{Blob, Txt};
use std::alloc::{AllocError, Global};
use std::collections::BTreeMap;
use std::marker::Model;

/// Files by their paths, seen as the finite map of their bytes.
pub(crate) struct FileMap {
    files: BTreeMap<Txt, Blob>,
}

impl Drop for FileMap {
    fn drop(self) {
        let FileMap { files } = self;
    }
}

impl Model for FileMap {
    ghost use Rattle.std.specs.Prelude.{List, ℕ};
    ghost use Rattle.std.specs.Coded.{coded_ℕ, coded_list};
    ghost use Rattle.std.specs.Cmp.Lexicographic.{slice_cmp};
    ghost use Rattle.std.specs.FinMap as map;
    ghost use Rattle.std.specs.Ordering.{nat_cmp};

    ghost Value = { map.FinMap (slice_cmp nat_cmp) (List ℕ) };

    ghost coded = { map.code (coded_list coded_ℕ) (coded_list coded_ℕ) };

    ghost view = { λ m. map.from_entries m.files.entries };
}

impl FileMap {
    /// No files.
    pub(crate) fn new(alloc: Global) -> FileMap
        ensures { result ≡ map.empty }
    {
        FileMap {
            files: BTreeMap::new(alloc),
        }
    }

    /// The bytes at a path.
    pub(crate) fn get(&self, path: &Txt) -> Option<&Blob>
        ensures { option_copied result ≡ map.get self.now path.now }
    {
        self.files.get(path)
    }

    /// The names directly in a folder.
    pub(crate) fn names_in(&self, alloc: Global, folder: &str) -> Result<Vec<Txt>, AllocError>
        ensures { IfOk result (λ names. IsListing folder.now names.items self.now) }
    {
        names_in(alloc, &self.files, folder)
    }

    /// What a call answers where it is carried out on these files.
    pub(crate) fn answer(&self, alloc: Global, call: &Call) -> Result<Answer, AllocError>
        ensures { IfOk result (λ answer. Answers call.now answer self.now) }
    {
        match call {
            Call::List { folder } => Ok(Answer::Listed(self.names_in(alloc, folder.as_str())?)),
            Call::Read { path } => Ok(Answer::Found(copied(alloc, self.get(path))?)),
            Call::Create { path, .. } => Ok(Answer::Made(made(self.get(path)))),
            Call::Publish { after, path, .. } => {
                Ok(Answer::Published(published(self.get(path), self.get(after))))
            }
            Call::Swap { path, expected, .. } => {
                Ok(Answer::Swapped(swapped(alloc, self.get(path), expected)?))
            }
            Call::Remove { path } => Ok(Answer::Removed(removed(self.get(path)))),
        }
    }

    /// Carries out as much of a call as the operation says.
    pub(crate) fn apply(&mut self, alloc: Global, op: &Op) -> Result<(), AllocError>
        ensures ok { OnOk result (self.new ≡ after_op op.now self.old) }
        ensures err { OnErr result (self.new ≡ self.old) }
    {
        match &op.effect {
            Effect::None => Ok(()),
            Effect::Part(found) => self.cut(alloc, &op.call, found),
            Effect::Whole => self.carry(alloc, &op.call),
        }
    }

    /// Carries out a call whole.
    fn carry(&mut self, alloc: Global, call: &Call) -> Result<(), AllocError>
        ensures ok { OnOk result (self.new ≡ carried call.now self.old) }
        ensures err { OnErr result (self.new ≡ self.old) }
    {
        match call {
            Call::List { .. } | Call::Read { .. } => Ok(()),
            Call::Create { path, bytes } => self.put_absent(alloc, path, bytes),
            Call::Publish { after, path, bytes } => {
                if self.get(after).is_none() {
                    return Ok(());
                }
                self.put_absent(alloc, path, bytes)
            }
            Call::Swap {
                path,
                expected,
                bytes,
            } => {
                if !is_expected(self.get(path), content(expected)) {
                    return Ok(());
                }
                self.put(alloc, path, bytes)
            }
            Call::Remove { path } => {
                self.erase(path);
                Ok(())
            }
        }
    }

    /// Carries out a part of a call.
    fn cut(&mut self, alloc: Global, call: &Call, found: &Option<Blob>) -> Result<(), AllocError>
        ensures ok { OnOk result (self.new ≡ cut call.now found.now self.old) }
        ensures err { OnErr result (self.new ≡ self.old) }
    {
        let Some(bytes) = found else {
            return Ok(());
        };
        match call {
            Call::Create { path, .. } => self.put_absent(alloc, path, bytes),
            _ => Ok(()),
        }
    }

    /// Writes a path where it is absent.
    fn put_absent(&mut self, alloc: Global, path: &Txt, bytes: &Blob) -> Result<(), AllocError>
        ensures ok { OnOk result (self.new ≡ (if is_none (map.get self.old path.now)
            then map.insert self.old path.now bytes.now else self.old)) }
        ensures err { OnErr result (self.new ≡ self.old) }
    {
        if self.get(path).is_some() {
            return Ok(());
        }
        self.put(alloc, path, bytes)
    }

    /// Writes a path.
    fn put(&mut self, alloc: Global, path: &Txt, bytes: &Blob) -> Result<(), AllocError>
        ensures ok { OnOk result (self.new ≡ map.insert self.old path.now bytes.now) }
        ensures err { OnErr result (self.new ≡ self.old) }
    {
        let path = path.copy(alloc)?;
        let bytes = bytes.copy(alloc)?;
        self.files.insert(path, bytes)?;
        Ok(())
    }

    /// Takes a path away.
    fn erase(&mut self, path: &Txt)
        ensures { self.new ≡ map.remove self.old path.now }
    {
        let _ = self.files.remove(path);
    }
}

/// A copy of what was found.
fn copied(alloc: Global, found: Option<&Blob>) -> Result<Option<Blob>, AllocError>
    ensures { IfOk result (λ copy. copy ≡ option_copied found.entry) }
{
    match found {
        Some(bytes) => Ok(Some(bytes.copy(alloc)?)),
        None => Ok(None),
    }
}

/// The bytes of a content, where there is one.
pub(crate) fn content(found: &Option<Blob>) -> Option<&[u8]>
    ensures { option_copied result ≡ found.now }
{
    match found {
        Some(bytes) => Some(bytes.as_bytes()),
        None => None,
    }
}

/// What a create answers at a path.
fn made(found: Option<&Blob>) -> Made
    ensures { result ≡ made_at (option_copied found.entry) }
{
    match found {
        None => Made::Created,
        Some(_) => Made::Exists,
    }
}

/// What a publish answers at a path, after another.
fn published(found: Option<&Blob>, after: Option<&Blob>) -> Published
    ensures { result ≡ published_at (option_copied found.entry) (option_copied after.entry) }
{
    match (found, after) {
        (Some(_), _) => Published::Exists,
        (None, None) => Published::AfterGone,
        (None, Some(_)) => Published::Created,
    }
}

/// What a swap answers at a path.
fn swapped(
    alloc: Global,
    found: Option<&Blob>,
    expected: &Option<Blob>,
) -> Result<Swapped, AllocError>
    ensures { IfOk result (λ answer. Swaps expected.now (option_copied found.entry) answer) }
{
    if is_expected(found, content(expected)) {
        return Ok(Swapped::Swapped);
    }
    Ok(Swapped::Differs(copied(alloc, found)?))
}

/// What a remove answers at a path.
fn removed(found: Option<&Blob>) -> Removed
    ensures { result ≡ removed_at (option_copied found.entry) }
{
    match found {
        Some(_) => Removed::Removed,
        None => Removed::Absent,
    }
}
