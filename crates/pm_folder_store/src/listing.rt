//! The names that a listing of a folder shows. One that isn't UTF-8 is passed over, as is one that no file of the
//! store can have.

ghost use Rattle.std.specs.Prelude.{◌↔◌, ℕ, List, Contains, IfOk, OnOk};
ghost use Rattle.std.specs.Cmp.Lexicographic.{slice_cmp};
ghost use Rattle.std.specs.List.Sorted.{IsStrictlySortedBy};
ghost use Rattle.std.specs.Ordering.{nat_cmp};

use crate::host::{Host, Kind};
use crate::look::kind_at;
use crate::paths::{has_folders, is_name, place_in, put_place};
use pm_base::Txt;
use pm_store::StoreFail;
use std::alloc::{AllocError, Global};

/// What stands in a folder under its names.
#[derive(Clone, Copy)]
pub(crate) enum Content {
    /// Files, as its seal says: none of them is looked at.
    SealedFiles,
    /// Files: an empty folder stands where one should.
    Files,
    /// Folders: killed writers may have left empty ones.
    Folders,
}

impl Content {
    /// What stands in a folder of the store.
    pub(crate) fn of(folder: &str, is_sealed: bool) -> Content {
        if is_sealed {
            return Content::SealedFiles;
        }
        if has_folders(folder) {
            return Content::Folders;
        }
        Content::Files
    }
}

/// The shown ones among the names that a folder was read as, put in order once.
pub(crate) fn shown_names<H: Host>(
    alloc: Global,
    host: &mut H,
    folder: &str,
    names: Vec<Txt>,
    content: Content,
) -> Result<Vec<Txt>, StoreFail>
    ensures { IfOk result (λ names. IsStrictlySortedBy (slice_cmp nat_cmp) names.items) }
{
    let mut shown = unordered(alloc, host, folder, names, content)?;
    put_in_order(&mut shown)?;
    Ok(shown)
}

/// The same, in any order.
fn unordered<H: Host>(
    alloc: Global,
    host: &mut H,
    folder: &str,
    names: Vec<Txt>,
    content: Content,
) -> Result<Vec<Txt>, StoreFail> {
    let mut place = String::new(alloc);
    let mut shown = Vec::with_capacity(alloc, names.len())?;
    for name in names {
        if is_name(name.as_str()) {
            put_place(&mut place, folder, name.as_str())?;
            if is_shown(alloc, host, place.as_str(), content)? {
                shown.push(name)?;
            }
        }
    }
    Ok(shown)
}

/// Puts names in order, each once.
fn put_in_order(names: &mut Vec<Txt>) -> Result<(), AllocError>
    ensures order { OnOk result (IsStrictlySortedBy (slice_cmp nat_cmp) names.new.items) }
    ensures same { OnOk result ((name : List ℕ) → Contains names.new.items name ↔ Contains names.old.items name) }
{
    names.sort()?;
    names.dedup();
    Ok(())
}

/// Whether a list shows what stands at a place: a file, or a folder that isn't empty. What is neither is a fault.
fn is_shown<H: Host>(
    alloc: Global,
    host: &mut H,
    place: &str,
    content: Content,
) -> Result<bool, StoreFail> {
    if matches!(content, Content::SealedFiles) {
        return Ok(true);
    }
    match kind_at(host, place)? {
        None => Ok(false),
        Some(Kind::File) => Ok(true),
        Some(Kind::Other) => Err(StoreFail::Failed),
        Some(Kind::Folder) => {
            let is_full = holds_file(alloc, host, String::from_str(alloc, place)?)?;
            if !is_full && !matches!(content, Content::Folders) {
                return Err(StoreFail::Failed);
            }
            Ok(is_full)
        }
    }
}

/// Whether anything but folders stands in a folder or below it, under a shown name.
fn holds_file<H: Host>(alloc: Global, host: &mut H, folder: String) -> Result<bool, StoreFail> {
    let mut folders = Vec::new(alloc);
    folders.push(folder)?;
    for _ in 0..u32::MAX {
        let Some(folder) = folders.pop() else {
            return Ok(false);
        };
        if has_file(alloc, host, folder.as_str(), &mut folders)? {
            return Ok(true);
        }
    }
    Err(StoreFail::Failed)
}

/// Whether anything but folders stands in a folder, under a shown name. Adds the folders in it where nothing does. What
/// is no file either counts, so that the folder is shown and its own listing answers the fault.
fn has_file<H: Host>(
    alloc: Global,
    host: &mut H,
    folder: &str,
    folders: &mut Vec<String>,
) -> Result<bool, StoreFail> {
    for name in host.names(alloc, folder)? {
        if !is_name(name.as_str()) {
            continue;
        }
        let path = place_in(alloc, folder, name.as_str())?;
        match kind_at(host, path.as_str())? {
            None => {}
            Some(Kind::Folder) => folders.push(path)?,
            Some(Kind::File | Kind::Other) => return Ok(true),
        }
    }
    Ok(false)
}
