//! Paths of the store as texts, and the ways to spell the folder itself.

ghost use Rattle.std.specs.Prelude.{◌≡◌, ◌++◌, ◌∷◌, IfOk, OnOk, MatchOption, string_bytes};
ghost use Rattle.pm_folder_store.specs.Paths.{is_name, is_path, IsPlace};
ghost use Rattle.pm_folder_store.specs.Paths.{HasNoSlash, IsCutAtLast, IsFolderOf, IsStoreFolderOf};
ghost use Rattle.pm_folder_store.specs.Folders.{can_be_sealed, is_made_once, is_named_elsewhere, last_part};

use std::alloc::{AllocError, Global};

/// How many bytes a name has at most.
const LONGEST_NAME: usize = 255;

/// Whether a file of the store can have a path: each part of it is a name.
pub(crate) fn is_path(path: &str) -> bool
    ensures { result ≡ is_path path.now }
{
    path.split('/').all(|part| is_name(part))
}

/// Whether a file or a folder of the store can have a name: it has 1 to 255 bytes, no NUL, and no dot at its front.
pub(crate) fn is_name(name: &str) -> bool
    ensures { result ≡ is_name name.now }
{
    let bytes = name.as_bytes();
    !bytes.is_empty() && bytes.len() <= LONGEST_NAME && bytes[0] != b'.' && !bytes.contains(&0)
}

/// Where a path of the store stands in the file system; nowhere where no file can have it.
pub(crate) fn place_of(alloc: Global, root: &str, path: &str) -> Result<Option<String>, AllocError>
    ensures { IfOk result (IsPlace root.now path.now) }
{
    if !is_path(path) {
        return Ok(None);
    }
    Ok(Some(format!(in alloc; "{root}/{path}")?))
}

/// Where a name stands in a folder, in the file system.
pub(crate) fn place_in(alloc: Global, folder: &str, name: &str) -> Result<String, AllocError>
    ensures { IfOk result (λ place. string_bytes place ≡ folder.now ++ (47 ∷ name.now)) }
{
    let mut place = String::new(alloc);
    put_place(&mut place, folder, name)?;
    Ok(place)
}

/// The same, in a text that had another place before: a listing asks for each name, and takes memory for the longest.
pub(crate) fn put_place(place: &mut String, folder: &str, name: &str) -> Result<(), AllocError>
    ensures { OnOk result (string_bytes place.new ≡ folder.now ++ (47 ∷ name.now)) }
{
    place.clear();
    place.push_str(folder)?;
    place.push_str("/")?;
    place.push_str(name)?;
    Ok(())
}

/// The folder of the store that a path of the store stands in; the empty text for the store's own.
pub(crate) fn store_folder_of(path: &str) -> &str
    ensures { IsStoreFolderOf path.now result.now }
{
    match cut(path) {
        Some((folder, _)) => folder,
        None => "",
    }
}

/// The folder that a path in the file system stands in.
pub(crate) fn folder_of(path: &str) -> &str
    ensures { IsFolderOf path.now result.now }
{
    match cut(path) {
        Some((folder, _)) if folder.is_empty() => "/",
        Some((folder, _)) => folder,
        None => ".",
    }
}

/// What stands after the last slash of a path; all of it where it has none.
pub(crate) fn last_part(path: &str) -> &str
    ensures { result.now ≡ last_part path.now }
{
    match cut(path) {
        Some((_, name)) => name,
        None => path,
    }
}

/// Whether the files of a folder of the store are reached only by their names in files of other folders: it has
/// manifests and their lists, or the data files of a bucket.
pub(crate) fn is_named_elsewhere(folder: &str) -> bool
    ensures { result ≡ is_named_elsewhere folder.now }
{
    folder == "manifest" || last_part(folder).starts_with("bucket-")
}

/// Whether no file of a folder of the store is ever replaced, or made anew once it was taken away.
pub(crate) fn is_made_once(folder: &str) -> bool
    ensures { result ≡ is_made_once folder.now }
{
    folder == "snapshot" || folder == "schema"
}

/// Whether a folder of the store is sealed: it is listed often, and has files alone.
pub(crate) fn can_be_sealed(folder: &str) -> bool
    ensures { result ≡ can_be_sealed folder.now }
{
    folder == "manifest" || is_made_once(folder)
}

/// Whether folders alone stand in a folder of the store: in the store's own, and in a partition's, whose name has a
/// `=`.
pub(crate) fn has_folders(folder: &str) -> bool {
    match cut(folder) {
        Some((_, name)) => name.contains('='),
        None => folder.is_empty() || folder.contains('='),
    }
}

/// What stands before and after the last slash of a path; nothing where it has none.
fn cut(path: &str) -> Option<(&str, &str)>
    ensures { MatchOption result (HasNoSlash path.now) (λ x. IsCutAtLast path.now x.0.now x.1.now) }
{
    path.rsplit_once('/')
}

/// A folder's name without slashes and without `/.` at its end. Where nothing else stands in it, it is `/`.
pub(crate) fn without_end(folder: &str) -> &str {
    let mut name = folder;
    for _ in 0..folder.len() {
        match shorter(name) {
            Some("") => return "/",
            Some(left) => name = left,
            None => return name,
        }
    }
    name
}

/// A folder's name without its last slash or `/.`, where it ends in one.
fn shorter(name: &str) -> Option<&str> {
    match name.strip_suffix('/') {
        Some(left) => Some(left),
        None => name.strip_suffix("/."),
    }
}
