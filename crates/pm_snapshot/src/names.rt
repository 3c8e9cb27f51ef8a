//! The names of snapshots and floors, and the base in other files' names.

ghost use Rattle.std.specs.Prelude.{◌≡◌, ℕ, IfOk, IfSome, IfNone};
ghost use Rattle.pm_snapshot.specs.Names.{snapshot_name, id_in, floor_in, number_in, number_after, IsNamed, HasBase};

use crate::decimal::natural_in;
use crate::parts::base_in_middle;
use std::alloc::{AllocError, Global};

/// The greatest number that stands in a name.
const GREATEST: u64 = 9007199254740991;

/// The name of the snapshot with an id, in the folder `snapshot`.
pub fn snapshot_name(alloc: Global, id: u64) -> Result<Vec<u8>, AllocError>
    ensures { IfOk result (λ name. name.items ≡ snapshot_name id) }
{
    let text = format!(in alloc; "snapshot-{id}")?;
    Ok(text.into_bytes())
}

/// The id in the name of a snapshot, and none in another name.
#[tactic(auto, unfolding(crate::specs::Names::id_in))]
pub fn id_of_name(name: &[u8]) -> Option<u64>
    ensures { result ≡ id_in name.now }
{
    number_after(b"snapshot-", name)
}

/// The number in the name of a floor, and none in another name.
#[tactic(auto, unfolding(crate::specs::Names::floor_in))]
pub fn floor_of_name(name: &[u8]) -> Option<u64>
    ensures { result ≡ floor_in name.now }
{
    number_after(b"floor-", name)
}

/// The base in the name of a manifest, a list, a data file or a changelog file, and none in another
/// name.
pub fn base_of_name(name: &[u8]) -> Option<u64>
    ensures found { IfSome result (HasBase name.now) }
    ensures other { IfNone result ((base : ℕ) → ¬ HasBase name.now base) }
{
    if let Some(base) = base_between(b"manifest-", b"", name) {
        return Some(base);
    }
    if let Some(base) = base_between(b"manifest-list-", b"", name) {
        return Some(base);
    }
    if let Some(base) = base_between(b"data-", b".avro", name) {
        return Some(base);
    }
    base_between(b"changelog-", b".avro", name)
}

/// The base in a name between a prefix and a suffix.
fn base_between(prefix: &[u8], suffix: &[u8], name: &[u8]) -> Option<u64>
    ensures found { IfSome result (IsNamed prefix.now suffix.now name.now) }
    ensures other { IfNone result
        ((base : ℕ) → ¬ IsNamed prefix.now suffix.now name.now base) }
{
    let rest = name.strip_prefix(prefix)?;
    let middle = rest.strip_suffix(suffix)?;
    base_in_middle(middle)
}

/// The number that a name has after a prefix, and none in another name.
pub fn number_after(prefix: &[u8], name: &[u8]) -> Option<u64>
    ensures { result ≡ number_after prefix.now name.now }
{
    let digits = name.strip_prefix(prefix)?;
    number_in(digits)
}

/// The number whose decimal text this is, where it may stand in a name.
pub(crate) fn number_in(text: &[u8]) -> Option<u64>
    ensures { result ≡ number_in text.now }
{
    let n = natural_in(text)?;
    if n <= GREATEST { Some(n) } else { None }
}
