//! The floors that names list.

ghost use Rattle.std.specs.Prelude.{◌≡◌};
ghost use Rattle.pm_consumer_files.specs.Floors.{above, greatest_from, with_floor, Exceeds};

use pm_base::Txt;
use pm_snapshot::floor_of_name;

/// The greatest floor that names list, where it exceeds the number of the next snapshot to read.
pub fn floor_above(names: &[Txt], next: u64) -> Option<u64>
    ensures { Exceeds names.now next result }
{
    above(next, greatest_from(names))
}

/// The floor, where it exceeds the number.
fn above(next: u64, floor: u64) -> Option<u64>
    ensures { result ≡ above next floor }
{
    if next < floor { Some(floor) } else { None }
}

/// The greatest number of the floors in the names, or 0.
fn greatest_from(names: &[Txt]) -> u64
    ensures { result ≡ greatest_from names.now 0 }
{
    let mut floor = 0;
    for name in names {
        floor = with_floor(floor, name.as_bytes());
    }
    floor
}

/// The greater of a number and that of the floor which a name is.
fn with_floor(floor: u64, name: &[u8]) -> u64
    ensures { result ≡ with_floor floor name.now }
{
    match floor_of_name(name) {
        Some(number) if floor < number => number,
        _ => floor,
    }
}
