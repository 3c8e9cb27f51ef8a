//! The names in the folders of schemas and of snapshots.

ghost use Rattle.std.specs.Prelude.{◌≡◌, ◌↔◌, None, IfSome, IfNone, IsTrue};
ghost use Rattle.std.specs.List.{list_any};
ghost use Rattle.pm_read_schema.specs.Names.{greater, names_snapshot, newest_from, schema_id_in};
ghost use Rattle.pm_read_schema.specs.Names.{HasNoSchema, HasSnapshot, IsNewest};

use pm_base::Txt;
use pm_snapshot::{id_of_name, number_after};

/// The id in the name of a schema, and none in another name.
#[tactic(auto, unfolding(crate::specs::Names::schema_id_in))]
pub fn schema_id_of_name(name: &[u8]) -> Option<u64>
    ensures { result ≡ schema_id_in name.now }
{
    number_after(b"schema-", name)
}

/// The id of the newest schema that names list, or none where they list no schema.
pub(crate) fn newest_schema(names: &[Txt]) -> Option<u64>
    ensures found { IfSome result (IsNewest names.now) }
    ensures other { IfNone result (HasNoSchema names.now) }
{
    newest_from(names)
}

/// The greatest of the ids of schemas that names bear.
fn newest_from(names: &[Txt]) -> Option<u64>
    ensures { result ≡ newest_from names.now None }
{
    let mut best = None;
    for name in names {
        best = greater(best, schema_id_of_name(name.as_bytes()));
    }
    best
}

/// The greater of two ids, if there is one.
fn greater(best: Option<u64>, other: Option<u64>) -> Option<u64>
    ensures { result ≡ greater best other }
{
    match (best, other) {
        (Some(id), Some(more)) if id < more => other,
        (Some(_), _) => best,
        (None, _) => other,
    }
}

/// Whether names list a snapshot, the origin left out.
pub(crate) fn lists_snapshot(names: &[Txt]) -> bool
    ensures { IsTrue result ↔ HasSnapshot names.now }
{
    any_snapshot(names)
}

/// Whether one of the names is that of a snapshot, not of the origin.
fn any_snapshot(names: &[Txt]) -> bool
    ensures { result ≡ list_any names_snapshot names.now }
{
    for name in names {
        if names_snapshot(name.as_bytes()) {
            return true;
        }
    }
    false
}

/// Whether the name is that of a snapshot, not of the origin.
fn names_snapshot(name: &[u8]) -> bool
    ensures { result ≡ names_snapshot name.now }
{
    match id_of_name(name) {
        Some(id) => 0 < id,
        None => false,
    }
}
