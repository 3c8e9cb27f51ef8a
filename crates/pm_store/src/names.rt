//! The names in a folder.

ghost use Rattle.std.specs.Prelude.{◌≡◌, ◌==◌, ◌++◌, List, ℕ, true, IfOk, option_map};
ghost use Rattle.std.specs.BTreeMap.Range.{IsLeBy, IsLtBy, range_contains, entries_between};
ghost use Rattle.std.specs.BTreeSet.{IsOrdered, contains};
ghost use Rattle.std.specs.Cmp.Lexicographic.{slice_cmp};
ghost use Rattle.std.specs.List.Sorted.{IsStrictlySortedBy};
ghost use Rattle.std.specs.Ordering.{nat_cmp};
ghost use Rattle.std.specs.Range.Bound.{IsForward};
ghost use Rattle.std.specs.FinMap as map;
ghost use Rattle.std.specs.List.{before_first, list_any};
ghost use Rattle.pm_store.specs.Files.{IsListing, prefix_of, name_after, slash};
ghost use Rattle.pm_store.specs.Names.{leads_to};

use pm_base::{Blob, Txt};
use std::alloc::{AllocError, Global};
use std::collections::{BTreeMap, BTreeSet};
use std::ops::Bound;

/// The names directly in a folder, rising by bytes, from the part of the files that lies below it.
pub(crate) fn names_in(
    alloc: Global,
    files: &BTreeMap<Txt, Blob>,
    folder: &str,
) -> Result<Vec<Txt>, AllocError>
    ensures { IfOk result (λ names. IsListing folder.now names.items (map.from_entries files.now.entries)) }
{
    let prefix = prefix_of(alloc, folder)?;
    let bounds = bounds_of(alloc, folder)?;
    let names = gathered(alloc, files, bounds, prefix.as_str())?;
    listed(alloc, names)
}

/// The names that paths between two bounds lead to after a prefix.
fn gathered(
    alloc: Global,
    files: &BTreeMap<Txt, Blob>,
    bounds: (Bound<Txt>, Bound<Txt>),
    prefix: &str,
) -> Result<BTreeSet<Txt>, AllocError>
    requires { IsForward (IsLeBy (slice_cmp nat_cmp)) (IsLtBy (slice_cmp nat_cmp)) bounds.0 bounds.1 }
    ensures { IfOk result (λ names. (q : List ℕ) → contains (slice_cmp nat_cmp) names q
        ≡ list_any (λ e. leads_to prefix.now q e.0)
        (entries_between (slice_cmp nat_cmp) bounds.0 bounds.1 files.now.entries)) }
{
    let mut names = BTreeSet::new(alloc);
    for (path, _) in files.range(bounds) {
        if let Some(name) = name_after(prefix, path.as_str()) {
            names.insert(Txt::from_str(alloc, name)?)?;
        }
    }
    Ok(names)
}

/// The names of a set, in their order.
pub fn listed(alloc: Global, names: BTreeSet<Txt>) -> Result<Vec<Txt>, AllocError>
    ensures names { IfOk result (λ list. list.items ≡ names.keys) }
    ensures rising { IsOrdered (slice_cmp nat_cmp) names }
    ensures list_rising { IfOk result (λ list. IsStrictlySortedBy (slice_cmp nat_cmp) list.items) }
{
    let mut list = Vec::with_capacity(alloc, names.len())?;
    for name in names {
        list.push(name)?;
    }
    Ok(list)
}

/// The bounds of the paths below a folder: from its name with a slash up to its name with the byte after that.
fn bounds_of(alloc: Global, folder: &str) -> Result<(Bound<Txt>, Bound<Txt>), AllocError>
    ensures forward { IfOk result (λ bounds.
        IsForward (IsLeBy (slice_cmp nat_cmp)) (IsLtBy (slice_cmp nat_cmp)) bounds.0 bounds.1) }
    ensures all { IfOk result (λ bounds. (rest : List ℕ)
        → range_contains (slice_cmp nat_cmp) bounds.0 bounds.1 (prefix_of folder.now ++ rest) ≡ true) }
{
    if folder.is_empty() {
        return Ok((Bound::Unbounded, Bound::Unbounded));
    }
    let first = joined(alloc, folder, "/")?;
    let end = joined(alloc, folder, "0")?;
    Ok((Bound::Included(first), Bound::Excluded(end)))
}

/// What stands before the names in a folder.
fn prefix_of(alloc: Global, folder: &str) -> Result<Txt, AllocError>
    ensures { IfOk result (λ prefix. prefix ≡ prefix_of folder.now) }
{
    if folder.is_empty() {
        return Txt::from_str(alloc, "");
    }
    joined(alloc, folder, "/")
}

/// A text, and then another.
fn joined(alloc: Global, text: &str, more: &str) -> Result<Txt, AllocError>
    ensures { IfOk result (λ all. all ≡ text.now ++ more.now) }
{
    let all = format!(in alloc; "{text}{more}")?;
    Txt::from_str(alloc, all.as_str())
}

/// The name that a path leads to after a prefix.
fn name_after<'a>(prefix: &str, path: &'a str) -> Option<&'a str>
    ensures { option_map (λ name. name.now) result ≡ name_after prefix.now path.now }
{
    let rest = path.strip_prefix(prefix)?;
    let name = first_part(rest);
    if name.is_empty() { None } else { Some(name) }
}

/// What stands before the first slash.
fn first_part(path: &str) -> &str
    ensures { result.now ≡ before_first (λ b. b == slash) path.now }
{
    match path.split_once('/') {
        Some((name, _)) => name,
        None => path,
    }
}
