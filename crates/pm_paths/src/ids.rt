//! The ids of the snapshots that names list, and the latest of them.

ghost use Rattle.std.specs.Prelude.{◌≡◌, max, IfOk};
ghost use Rattle.std.specs.List.{filter_map};
ghost use Rattle.pm_paths.specs.Ids.{id_or_none, latest_from, listed_id, AreIds, IsLatest};

use pm_base::Txt;
use pm_snapshot::id_of_name;
use std::alloc::{AllocError, Global};

/// The ids of the snapshots that names list, the origin left out, rising.
pub fn ids_of(alloc: Global, names: &[Txt]) -> Result<Vec<u64>, AllocError>
    ensures { IfOk result (λ ids. AreIds names.now ids.items) }
{
    let mut ids = listed_ids(alloc, names)?;
    ids.sort()?;
    ids.dedup();
    Ok(ids)
}

/// These ids in the order of the names.
fn listed_ids(alloc: Global, names: &[Txt]) -> Result<Vec<u64>, AllocError>
    ensures { IfOk result (λ ids. ids.items ≡ filter_map listed_id names.now) }
{
    let mut ids = Vec::new(alloc);
    for name in names {
        if let Some(id) = listed_id(name.as_bytes()) {
            ids.push(id)?;
        }
    }
    Ok(ids)
}

/// The id in the name of a snapshot, not of the origin.
fn listed_id(name: &[u8]) -> Option<u64>
    ensures { result ≡ listed_id name.now }
{
    match id_of_name(name) {
        Some(id) if 0 < id => Some(id),
        _ => None,
    }
}

/// The id of the latest snapshot that names list, 0 where they list no greater one.
pub fn latest_of(names: &[Txt]) -> u64
    ensures { IsLatest names.now result }
{
    latest_from(names)
}

/// The greatest of the ids in the names, or 0.
fn latest_from(names: &[Txt]) -> u64
    ensures { result ≡ latest_from names.now 0 }
{
    let mut latest = 0;
    for name in names {
        latest = greater(latest, id_or_none(name.as_bytes()));
    }
    latest
}

/// The greater of two ids.
fn greater(a: u64, b: u64) -> u64
    ensures { result ≡ max a b }
{
    if a < b { b } else { a }
}

/// The id in the name of a snapshot, and 0 in another name.
fn id_or_none(name: &[u8]) -> u64
    ensures { result ≡ id_or_none name.now }
{
    match id_of_name(name) {
        Some(id) => id,
        None => 0,
    }
}
