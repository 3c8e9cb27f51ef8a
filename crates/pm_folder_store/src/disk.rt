//! What a store on a folder asks of its host. No clause tells of content.
//!
//! A file is put in its place by a rename, so that a reader sees all of it or nothing, and each change is made
//! under the folder's lock. It is begun under the lock, too, and written without it, but for a short one that is owed.
//!
//! What is on the disk, and when:
//!
//! - A file's bytes are there before its name is, but for what is owed.
//! - A folder has its name there before anything is put into it, and the table's own folder before anything is put into
//!   the first folder on a path's way. So a folder that isn't empty has its name there.
//! - Files of `manifest` and of a bucket are reached only by their names in files of other folders. A change there only
//!   *owes* its file and that one's folder, and each change elsewhere first has all of these on the disk, before it
//!   names a file of theirs. A power loss may so take away what nothing names yet, leave any part of its bytes, or
//!   bring back what was taken away: as if the call hadn't come, or had been cut short.
//! - A change elsewhere is on the disk before it is answered.
//! - A look into a folder whose files are named elsewhere syncs nothing: what names a file came to the disk after it. A
//!   look elsewhere is on the disk before it is answered: the folder is synced where it changed since this process last
//!   synced it, but for a listing of one that is sealed as it is (`seal.rt`). What a read finds under a name that this
//!   process listed needs none, in a folder where nothing is replaced or made anew: that name was there since the
//!   listing.
//!
//! The folder itself may be what a link leads to. Inside it nothing is followed: each folder on a path is looked at
//! before what stands in it is. What is open is closed on each path by the host's own call.

ghost use Rattle.std.specs.Prelude.{◌≡◌, ◌↔◌, IfErr, IfOk, IsTrue};
ghost use Rattle.std.specs.Cmp.Lexicographic.{slice_cmp};
ghost use Rattle.std.specs.List.Sorted.{IsStrictlySortedBy};
ghost use Rattle.std.specs.Ordering.{nat_cmp};
ghost use Rattle.pm_folder_store.specs.Disk.{Judges, IsReplaced};

use crate::host::{Host, HostError, Kind};
use crate::listing::{Content, shown_names};
use crate::lock::locked;
use crate::look::{is_absent, judge_root, kind_at, make_folder, read_at};
use crate::owed::Owed;
use crate::paths::{
    can_be_sealed, folder_of, has_folders, is_named_elsewhere, is_path, place_of, store_folder_of,
    without_end,
};
use crate::seal::{Before, before_change, dated, is_sealed, seal};
use crate::shown::Shown;
use crate::standing::Standing;
use crate::syncing::Synced;
use crate::temporary::{Begun, begin_file};
use pm_base::{Blob, Txt};
use pm_store::{StoreFail, is_expected, listed};
use std::alloc::{AllocError, Global};
use std::collections::BTreeSet;

/// How many bytes of a file that is owed are written under the lock at most: these take less time than the lock.
const SHORT: usize = 65536;

/// When a file is written.
#[derive(Clone, Copy)]
pub(crate) enum Condition<'a> {
    /// Where the path is absent.
    Absent,
    /// Where the path is absent and this one is there.
    AbsentAfter(&'a str),
    /// Where the path has this content.
    Is(Option<&'a [u8]>),
}

/// Whether a file is written, or why not.
#[derive(Drop)]
pub(crate) enum Verdict {
    Write,
    Exists,
    AfterGone,
    Differs(Option<Blob>),
}

/// How far one comes on the way to a folder of the store: the last folder that is there, and whether it is that one.
#[derive(Drop)]
struct Way {
    folder: String,
    is_whole: bool,
}

/// What a listing found: the last folder that is there on the way to the one that is listed, the names in that one, and
/// whether that one is sealed.
#[derive(Drop)]
struct Listing {
    folder: String,
    names: Vec<Txt>,
    is_sealed: bool,
}

/// A folder, and what this process knows and owes of what is on the disk.
pub(crate) struct Disk<H: Host + Drop> {
    host: H,
    root: String,
    /// Whether this process made the folder itself, without its name on the disk yet.
    is_root_new: bool,
    /// Whether this process has seen the folder's own name on the disk.
    is_root_synced: bool,
    /// Whether this process took away what killed writers left.
    is_swept: bool,
    synced: Synced,
    owed: Owed,
    shown: Shown,
    standing: Standing,
}

impl<H: Host + Drop> Drop for Disk<H> {
    fn drop(self) {
        let Disk {
            host,
            root,
            is_root_new,
            is_root_synced,
            is_swept,
            synced,
            owed,
            shown,
            standing,
        } = self;
    }
}

impl<H: Host + Drop> Disk<H> {
    /// A folder that is there, or whose parent is. Nothing is made.
    pub(crate) fn open(alloc: Global, host: H, folder: &str) -> Result<Disk<H>, StoreFail> {
        let mut host = host;
        let root = String::from_str(alloc, without_end(folder))?;
        judge_root(alloc, &mut host, root.as_str())?;
        Ok(Disk {
            host,
            root,
            is_root_new: false,
            is_root_synced: false,
            is_swept: false,
            synced: Synced::new(alloc),
            owed: Owed::new(alloc),
            shown: Shown::new(alloc),
            standing: Standing::new(alloc),
        })
    }

    /// The names in a folder that don't begin with a dot: files, and folders with a file below them.
    pub(crate) fn list(&mut self, alloc: Global, folder: &str) -> Result<Vec<Txt>, StoreFail>
        ensures { IfOk result (λ names. IsStrictlySortedBy (slice_cmp nat_cmp) names.items) }
    {
        if !folder.is_empty() && !is_path(folder) {
            return Ok(listed(alloc, BTreeSet::new(alloc))?);
        }
        let Listing {
            folder: reached,
            names,
            is_sealed,
        } = self.listing(alloc, folder)?;
        if !is_named_elsewhere(folder) {
            if !is_sealed {
                self.settle(alloc, reached.as_str())?;
            }
            self.shown.keep(alloc, folder, &names)?;
        }
        Ok(names)
    }

    /// The bytes at a path. A folder is no file.
    pub(crate) fn read(&mut self, alloc: Global, path: &str) -> Result<Option<Blob>, StoreFail> {
        let found = self.content(alloc, path)?;
        self.settle_look(alloc, path, found.is_some())?;
        Ok(found)
    }

    /// Writes a path where the condition holds. What one look can judge is judged before anything is written.
    pub(crate) fn put(
        &mut self,
        alloc: Global,
        path: &str,
        condition: Condition,
        bytes: &[u8],
    ) -> Result<Verdict, StoreFail>
        ensures { IfOk result (Judges condition.entry) }
    {
        let Some(full) = self.place(alloc, path)? else {
            return Err(StoreFail::Failed);
        };
        let full = full.as_str();
        let verdict = self.judge_first(alloc, path, condition)?;
        if !matches!(&verdict, Verdict::Write) {
            self.settle_refusal(alloc, path, full, condition, &verdict)?;
            return Ok(verdict);
        }
        if !is_replaced(condition) {
            self.make_root()?;
        }
        if is_short(path, bytes) {
            return self.put_short(alloc, path, full, condition, bytes);
        }
        let mut begun = self.begin(alloc)?;
        let answer = self.put_in_place(alloc, path, full, condition, bytes, &mut begun);
        self.end(begun);
        answer
    }

    /// Takes a path away, and the folders that are empty then. Answers whether it was there.
    pub(crate) fn remove(&mut self, alloc: Global, path: &str) -> Result<bool, StoreFail> {
        let Some(full) = self.place(alloc, path)? else {
            return Err(StoreFail::Failed);
        };
        if !self.has_content(alloc, path)? {
            self.settle_look(alloc, path, false)?;
            return Ok(false);
        }
        if !is_named_elsewhere(store_folder_of(path)) {
            self.settle_owed(alloc)?;
        }
        let lock = self.locked(alloc, true)?;
        let answer = self.remove_locked(alloc, path, full.as_str());
        self.host.close(lock);
        answer
    }

    /// Takes a path away under the lock.
    fn remove_locked(&mut self, alloc: Global, path: &str, full: &str) -> Result<bool, StoreFail> {
        if !self.has_content(alloc, path)? {
            self.settle_look(alloc, path, false)?;
            return Ok(false);
        }
        let is_owed = self.owe_folder(alloc, path, full)?;
        let before = self.before_change(alloc, path)?;
        self.host.remove_file(full)?;
        let mut folder = folder_of(full);
        for _ in 0..path.len() {
            if folder == self.root.as_str() || self.host.remove_dir(folder).is_err() {
                break;
            }
            folder = folder_of(folder);
        }
        self.end_change(alloc, before, folder, is_owed)?;
        Ok(true)
    }

    /// Where a path stands in the file system; nowhere where no file can have it.
    fn place(&self, alloc: Global, path: &str) -> Result<Option<String>, AllocError> {
        place_of(alloc, self.root.as_str(), path)
    }

    /// Whether the folder itself is there. It may be what a link leads to.
    fn has_root(&mut self) -> Result<bool, StoreFail> {
        match self.host.look_through(self.root.as_str()) {
            Ok(found) if matches!(found.kind, Kind::Folder) => Ok(true),
            Ok(_) => Err(StoreFail::Failed),
            Err(HostError::NotFound) => Ok(false),
            Err(e) => Err(StoreFail::from(e)),
        }
    }

    /// The way to a folder of the store. What is neither a file nor a folder on it is a fault; a file ends it. What is
    /// found on it shows that the store's own folder is there: that one is looked at only where it is asked for itself,
    /// or the way isn't whole.
    fn way(&mut self, alloc: Global, folder: &str) -> Result<Way, StoreFail> {
        let mut reached = String::from_str(alloc, self.root.as_str())?;
        if folder.is_empty() {
            let is_whole = self.has_root()?;
            return Ok(Way {
                folder: reached,
                is_whole,
            });
        }
        for part in folder.split('/') {
            let next = format!(in alloc; "{reached}/{part}")?;
            match kind_at(&mut self.host, next.as_str())? {
                Some(Kind::Folder) => reached = next,
                Some(Kind::File) | None => {
                    let _is_there = self.has_root()?;
                    return Ok(Way {
                        folder: reached,
                        is_whole: false,
                    });
                }
                Some(Kind::Other) => return Err(StoreFail::Failed),
            }
        }
        Ok(Way {
            folder: reached,
            is_whole: true,
        })
    }

    /// What stands at a path of the store, or nothing. What is neither a file nor a folder on its way is a fault.
    fn kind(&mut self, alloc: Global, path: &str) -> Result<Option<Kind>, StoreFail> {
        let Some(full) = self.place(alloc, path)? else {
            return Ok(None);
        };
        if !self.way(alloc, store_folder_of(path))?.is_whole {
            return Ok(None);
        }
        kind_at(&mut self.host, full.as_str())
    }

    /// Whether a file is at a path. A folder is no file, and anything else that stands there is a fault.
    fn has_content(&mut self, alloc: Global, path: &str) -> Result<bool, StoreFail> {
        match self.kind(alloc, path)? {
            Some(Kind::File) => Ok(true),
            Some(Kind::Folder) | None => Ok(false),
            Some(Kind::Other) => Err(StoreFail::Failed),
        }
    }

    /// Whether a file is at a path that is to be a file's. Anything else that stands there is a fault.
    fn is_file(&mut self, alloc: Global, path: &str) -> Result<bool, StoreFail> {
        match self.kind(alloc, path)? {
            Some(Kind::File) => Ok(true),
            Some(Kind::Folder | Kind::Other) => Err(StoreFail::Failed),
            None => Ok(false),
        }
    }

    /// The bytes at a path, or nothing where no file is.
    fn content(&mut self, alloc: Global, path: &str) -> Result<Option<Blob>, StoreFail> {
        let Some(full) = self.place(alloc, path)? else {
            return Ok(None);
        };
        if !self.way(alloc, store_folder_of(path))?.is_whole {
            return Ok(None);
        }
        let found = read_at(alloc, &mut self.host, full.as_str())?;
        if found.is_some() {
            self.standing.keep(alloc, full.as_str())?;
        }
        Ok(found)
    }

    /// Whether a path is to be written, as far as that shows before the lock is held. Two files are two looks, and
    /// others may act between these: they are judged under the lock alone, unless there is no folder for either.
    fn judge_first(
        &mut self,
        alloc: Global,
        path: &str,
        condition: Condition,
    ) -> Result<Verdict, StoreFail>
        ensures { IfOk result (Judges condition.entry) }
    {
        match condition {
            Condition::AbsentAfter(_) => {
                if self.has_root()? {
                    return Ok(Verdict::Write);
                }
                Ok(Verdict::AfterGone)
            }
            _ => self.judge(alloc, path, condition),
        }
    }

    /// Whether a path is to be written.
    fn judge(
        &mut self,
        alloc: Global,
        path: &str,
        condition: Condition,
    ) -> Result<Verdict, StoreFail>
        ensures { IfOk result (Judges condition.entry) }
    {
        match condition {
            Condition::Is(expected) => {
                let found = self.content(alloc, path)?;
                if is_expected(found.as_ref(), expected) {
                    return Ok(Verdict::Write);
                }
                Ok(Verdict::Differs(found))
            }
            Condition::Absent => {
                if self.is_file(alloc, path)? {
                    return Ok(Verdict::Exists);
                }
                Ok(Verdict::Write)
            }
            Condition::AbsentAfter(after) => {
                if self.is_file(alloc, path)? {
                    return Ok(Verdict::Exists);
                }
                if self.is_file(alloc, after)? {
                    return Ok(Verdict::Write);
                }
                Ok(Verdict::AfterGone)
            }
        }
    }

    /// Writes a short file that is owed under one lock: nothing of it waits for the disk. The file is closed after the
    /// lock, since a file system may have its bytes on their way then.
    fn put_short(
        &mut self,
        alloc: Global,
        path: &str,
        full: &str,
        condition: Condition,
        bytes: &[u8],
    ) -> Result<Verdict, StoreFail>
        ensures { IfOk result (Judges condition.entry) }
    {
        let lock = self.locked(alloc, true)?;
        let mut begun = match self.begin_locked(alloc) {
            Ok(begun) => begun,
            Err(fail) => {
                self.host.close(lock);
                return Err(fail);
            }
        };
        let answer = self.fill_locked(alloc, path, full, condition, bytes, &mut begun);
        self.host.close(lock);
        self.end(begun);
        answer
    }

    /// Writes the bytes of a temporary file, and renames it to its path where the condition holds, under the lock.
    fn fill_locked(
        &mut self,
        alloc: Global,
        path: &str,
        full: &str,
        condition: Condition,
        bytes: &[u8],
        begun: &mut Begun<H::File>,
    ) -> Result<Verdict, StoreFail>
        ensures { IfOk result (Judges condition.entry) }
    {
        self.fill(full, condition, bytes, begun)?;
        self.put_locked(alloc, path, full, condition, begun)
    }

    /// Writes the bytes of a temporary file, which gets the mode of the one that it replaces.
    fn fill(
        &mut self,
        full: &str,
        condition: Condition,
        bytes: &[u8],
        begun: &mut Begun<H::File>,
    ) -> Result<(), StoreFail> {
        if is_replaced(condition) {
            self.copy_mode(full, &begun.file)?;
        }
        Ok(self.host.write(&mut begun.file, bytes)?)
    }

    /// Writes a temporary file to the disk, and renames it to its path where the condition holds.
    fn put_in_place(
        &mut self,
        alloc: Global,
        path: &str,
        full: &str,
        condition: Condition,
        bytes: &[u8],
        begun: &mut Begun<H::File>,
    ) -> Result<Verdict, StoreFail>
        ensures { IfOk result (Judges condition.entry) }
    {
        self.fill(full, condition, bytes, begun)?;
        if !is_named_elsewhere(store_folder_of(path)) {
            self.host.sync(&begun.file)?;
            self.settle_owed(alloc)?;
        }
        let lock = self.locked(alloc, true)?;
        let answer = self.put_locked(alloc, path, full, condition, begun);
        self.host.close(lock);
        answer
    }

    /// Renames a temporary file to its path where the condition holds, under the lock.
    fn put_locked(
        &mut self,
        alloc: Global,
        path: &str,
        full: &str,
        condition: Condition,
        begun: &mut Begun<H::File>,
    ) -> Result<Verdict, StoreFail>
        ensures { IfOk result (Judges condition.entry) }
    {
        let verdict = self.judge(alloc, path, condition)?;
        if !matches!(&verdict, Verdict::Write) {
            self.settle_refusal(alloc, path, full, condition, &verdict)?;
            return Ok(verdict);
        }
        let is_owed = self.owe(alloc, path, full)?;
        if !is_replaced(condition) {
            self.make_folders(alloc, store_folder_of(path))?;
        }
        self.standing.keep(alloc, full)?;
        let before = self.before_change(alloc, path)?;
        self.host.rename(begun.path.as_str(), full)?;
        begun.is_placed = true;
        self.end_change(alloc, before, folder_of(full), is_owed)?;
        Ok(verdict)
    }

    /// How the folder of a path is before it is changed, if it can be sealed.
    fn before_change(&mut self, alloc: Global, path: &str) -> Result<Option<Before>, StoreFail> {
        let folder = store_folder_of(path);
        if !can_be_sealed(folder) {
            return Ok(None);
        }
        before_change(alloc, &mut self.host, self.root.as_str(), folder)
    }

    /// Has a change in a folder on the disk, by the names in this one, unless it is owed, and seals the folder, if it
    /// can be sealed. It can't be out of memory any more.
    fn end_change(
        &mut self,
        alloc: Global,
        before: Option<Before>,
        place: &str,
        is_owed: bool,
    ) -> Result<(), StoreFail>
        ensures { IfErr result (λ fail. fail ≡ StoreFail.Failed) }
    {
        let dated = match &before {
            Some(before) => dated(&mut self.host, before),
            None => None,
        };
        if !is_owed {
            self.synced.sync(alloc, &mut self.host, place)?;
        }
        let Some(before) = before else {
            return Ok(());
        };
        if let Some(found) = dated {
            let _ = seal(alloc, &mut self.host, self.root.as_str(), before, found);
        }
        Ok(())
    }

    /// Gives a file the mode of the one that it is to replace.
    fn copy_mode(&mut self, full: &str, file: &H::File) -> Result<(), StoreFail> {
        match self.host.copy_mode(full, file) {
            Err(e) if !is_absent(e) => Err(StoreFail::from(e)),
            _ => Ok(()),
        }
    }

    /// Has the names in a folder that is there on the disk where it changed since this process last synced it.
    fn settle(&mut self, alloc: Global, folder: &str) -> Result<(), StoreFail> {
        self.synced
            .settle(alloc, &mut self.host, self.root.as_str(), folder)
    }

    /// Has on the disk what a look at a path found: a file that is there, or that none is.
    fn settle_look(&mut self, alloc: Global, path: &str, is_there: bool) -> Result<(), StoreFail> {
        if !is_path(path) || (is_there && self.shown.has(path)) {
            return Ok(());
        }
        let folder = store_folder_of(path);
        if is_named_elsewhere(folder) {
            return Ok(());
        }
        let way = self.way(alloc, folder)?;
        self.settle(alloc, way.folder.as_str())
    }

    /// Has on the disk what a put rests on that was refused. A file that is there and is named elsewhere is owed, since
    /// the caller may go on to name it.
    fn settle_refusal(
        &mut self,
        alloc: Global,
        path: &str,
        full: &str,
        condition: Condition,
        verdict: &Verdict,
    ) -> Result<(), StoreFail> {
        let is_there = matches!(verdict, Verdict::Exists | Verdict::Differs(Some(_)));
        if is_there && self.owe(alloc, path, full)? {
            return Ok(());
        }
        self.settle_look(alloc, path, is_there)?;
        let Condition::AbsentAfter(after) = condition else {
            return Ok(());
        };
        if is_there || store_folder_of(after) == store_folder_of(path) {
            return Ok(());
        }
        self.settle_look(alloc, after, false)
    }

    /// Owes a file and its folder where the files of that are named elsewhere, and answers whether they are.
    fn owe(&mut self, alloc: Global, path: &str, full: &str) -> Result<bool, AllocError> {
        let is_owed = self.owe_folder(alloc, path, full)?;
        if is_owed {
            self.owed.add_file(alloc, full)?;
        }
        Ok(is_owed)
    }

    /// Owes the folder of a path where its files are named elsewhere, and answers whether they are.
    fn owe_folder(&mut self, alloc: Global, path: &str, full: &str) -> Result<bool, AllocError> {
        if !is_named_elsewhere(store_folder_of(path)) {
            return Ok(false);
        }
        self.owed.add_folder(alloc, folder_of(full))?;
        Ok(true)
    }

    /// Has what is owed on the disk, before a change that may name a file of it: one in a folder whose own files aren't
    /// named elsewhere.
    fn settle_owed(&mut self, alloc: Global) -> Result<(), StoreFail> {
        let root = self.root.as_str();
        self.owed
            .settle(alloc, &mut self.synced, &mut self.host, root)
    }

    /// Makes the folder itself where it isn't there.
    fn make_root(&mut self) -> Result<(), StoreFail> {
        match self.host.create_dir(self.root.as_str()) {
            Ok(()) => {
                self.is_root_new = true;
                self.is_root_synced = false;
                Ok(())
            }
            Err(HostError::AlreadyExists) => Ok(()),
            Err(e) => Err(StoreFail::from(e)),
        }
    }

    /// Has the folder's own name on the disk, once. Where somebody else made it, and the folder around it can't be
    /// read, that is left to him.
    fn sync_root(&mut self, alloc: Global) -> Result<(), StoreFail> {
        if self.is_root_synced {
            return Ok(());
        }
        // The folder may be what a link leads to: the one around it is found from within.
        let around = format!(in alloc; "{}/..", self.root)?;
        match self
            .synced
            .sync_names(alloc, &mut self.host, around.as_str())
        {
            Ok(()) => {}
            Err(HostError::PermissionDenied) if !self.is_root_new => {}
            Err(e) => return Err(StoreFail::from(e)),
        }
        self.is_root_new = false;
        self.is_root_synced = true;
        Ok(())
    }

    /// Makes a folder of the store and those on its way, each with its name on the disk before there is anything in it.
    fn make_folders(&mut self, alloc: Global, folder: &str) -> Result<(), StoreFail> {
        if folder.is_empty() {
            return self.sync_root(alloc);
        }
        let mut above = String::from_str(alloc, self.root.as_str())?;
        for part in folder.split('/') {
            let next = format!(in alloc; "{above}/{part}")?;
            self.make_folder(alloc, above.as_str(), next.as_str())?;
            above = next;
        }
        Ok(())
    }

    /// Makes a folder where it isn't there, with its name on the disk. One that isn't empty has that: what is in it
    /// came after. The first on the way has the table's own name there, too, which so is there before any file.
    fn make_folder(&mut self, alloc: Global, above: &str, folder: &str) -> Result<(), StoreFail> {
        let is_new = make_folder(&mut self.host, folder)?;
        if !is_new && !self.standing.is_empty(&mut self.host, folder)? {
            return Ok(());
        }
        if above == self.root.as_str() {
            self.sync_root(alloc)?;
        }
        if is_new {
            return Ok(self.synced.sync_names(alloc, &mut self.host, above)?);
        }
        self.settle(alloc, above)
    }

    /// A new temporary file, locked as long as it is open.
    fn begin(&mut self, alloc: Global) -> Result<Begun<H::File>, StoreFail> {
        let lock = self.locked(alloc, true)?;
        let begun = self.begin_locked(alloc);
        self.host.close(lock);
        begun
    }

    /// The same under the lock. What killed writers left is taken away at the first.
    fn begin_locked(&mut self, alloc: Global) -> Result<Begun<H::File>, StoreFail> {
        let folder = format!(in alloc; "{}/.new", self.root)?;
        let begun = begin_file(alloc, &mut self.host, folder.as_str(), self.is_swept)?;
        self.is_swept = true;
        Ok(begun)
    }

    /// Closes a temporary file, and takes it away where it wasn't put in its place. It is locked while its name is
    /// there, so that nobody else takes it away or has that name anew.
    fn end(&mut self, begun: Begun<H::File>) {
        let Begun {
            file,
            path,
            is_placed,
        } = begun;
        if !is_placed {
            let _ = self.host.remove_file(path.as_str());
        }
        self.host.close(file);
    }

    /// The names in a folder of the store, read while no change is made. Without a lock file none was made yet.
    fn listing(&mut self, alloc: Global, folder: &str) -> Result<Listing, StoreFail>
        ensures { IfOk result (λ found. IsStrictlySortedBy (slice_cmp nat_cmp) found.names.items) }
    {
        if !self.has_lock(alloc)? {
            let found = self.names_in(alloc, folder, false)?;
            if !self.has_lock(alloc)? {
                return Ok(found);
            }
        }
        let lock = self.locked(alloc, false)?;
        let found = self.names_in(alloc, folder, true);
        self.host.close(lock);
        found
    }

    /// The names in a folder of the store; none where it isn't there. Its seal counts where the lock is held.
    fn names_in(
        &mut self,
        alloc: Global,
        folder: &str,
        is_locked: bool,
    ) -> Result<Listing, StoreFail>
        ensures { IfOk result (λ found. IsStrictlySortedBy (slice_cmp nat_cmp) found.names.items) }
    {
        let way = self.way(alloc, folder)?;
        if !way.is_whole {
            return Ok(Listing {
                folder: way.folder,
                names: listed(alloc, BTreeSet::new(alloc))?,
                is_sealed: false,
            });
        }
        let reached = way.folder;
        let names = self.host.names(alloc, reached.as_str())?;
        let is_sealed = is_locked && self.is_sealed(alloc, folder)?;
        let content = Content::of(folder, is_sealed);
        let names = shown_names(alloc, &mut self.host, reached.as_str(), names, content)?;
        Ok(Listing {
            folder: reached,
            names,
            is_sealed,
        })
    }

    /// Whether a folder of the store is sealed as it is.
    fn is_sealed(&mut self, alloc: Global, folder: &str) -> Result<bool, StoreFail> {
        if !can_be_sealed(folder) {
            return Ok(false);
        }
        is_sealed(alloc, &mut self.host, self.root.as_str(), folder)
    }

    /// Whether anything stands where the lock file does.
    fn has_lock(&mut self, alloc: Global) -> Result<bool, StoreFail> {
        let path = format!(in alloc; "{}/.lock", self.root)?;
        Ok(kind_at(&mut self.host, path.as_str())?.is_some())
    }

    /// The lock of the folder, held until it is closed: alone for a change, and with other readers for a list.
    fn locked(&mut self, alloc: Global, is_change: bool) -> Result<H::File, StoreFail> {
        let path = format!(in alloc; "{}/.lock", self.root)?;
        let turns = format!(in alloc; "{}/.new", self.root)?;
        locked(&mut self.host, path.as_str(), turns.as_str(), is_change)
    }
}

/// Whether a file is owed, and so short that it is written under the lock.
fn is_short(path: &str, bytes: &[u8]) -> bool {
    bytes.len() <= SHORT && is_named_elsewhere(store_folder_of(path))
}

/// Whether a file is replaced. Then each folder around it had its name on the disk before anything was in it.
fn is_replaced(condition: Condition) -> bool
    ensures { IsTrue result ↔ IsReplaced condition.entry }
{
    matches!(condition, Condition::Is(Some(_)))
}
