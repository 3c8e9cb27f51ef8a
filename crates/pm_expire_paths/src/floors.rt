//! The floors that names list below a number.

ghost use Rattle.std.specs.List.{filter_map};
ghost use Rattle.std.specs.Prelude.{◌≡◌, IfOk};
ghost use Rattle.pm_expire_paths.specs.Floors.{listed_below, AreFloorsBelow};

use pm_base::Txt;
use pm_snapshot::floor_of_name;
use std::alloc::{AllocError, Global};

/// The floors below a number that names list, rising.
pub fn floors_below(alloc: Global, names: &[Txt], own: u64) -> Result<Vec<u64>, AllocError>
    ensures { IfOk result (λ floors. AreFloorsBelow names.now own floors.items) }
{
    let mut floors = listed_floors(alloc, names, own)?;
    floors.sort()?;
    floors.dedup();
    Ok(floors)
}

/// The same in the order of the names.
fn listed_floors(alloc: Global, names: &[Txt], own: u64) -> Result<Vec<u64>, AllocError>
    ensures { IfOk result (λ floors. floors.items ≡ filter_map (listed_below own) names.now) }
{
    let mut floors = Vec::new(alloc);
    for name in names {
        if let Some(floor) = listed_below(own, name.as_bytes()) {
            floors.push(floor)?;
        }
    }
    Ok(floors)
}

/// The number of the floor that a name is, where it is below this one.
fn listed_below(own: u64, name: &[u8]) -> Option<u64>
    ensures { result ≡ listed_below own name.now }
{
    match floor_of_name(name) {
        Some(floor) if floor < own => Some(floor),
        _ => None,
    }
}
