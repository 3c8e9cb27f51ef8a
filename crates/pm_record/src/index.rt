//! The indexes of a record's fields, by their names.

ghost use Rattle.std.specs.Prelude.{◌≡◌, option_map, IfOk};
ghost use Rattle.pm_avro_schema.specs.View as types;
ghost use Rattle.std.specs.List.{list_any};
ghost use Rattle.std.specs.Str.{bytes_eq};
ghost use Rattle.pm_record.specs.Record.{all_differ, all_indexes, lent, HasIndexes};

use pm_avro_schema::AvroType;
use pm_base::Txt;
use std::alloc::{AllocError, Global};
use std::collections::BTreeMap;

/// Whether a name stands among others.
fn stands_in(name: &str, others: &[&str]) -> bool
    ensures { result ≡ list_any (bytes_eq name.now) (lent others.now) }
{
    for other in others {
        if name == *other {
            return true;
        }
    }
    false
}

/// Whether no name stands twice. It takes no memory, and time by the square of how many names there are.
pub fn all_differ(names: &[&str]) -> bool
    ensures { result ≡ all_differ (lent names.now) }
{
    for index in 0..names.len() {
        if stands_in(names[index], names.split_at(index + 1).1) {
            return false;
        }
    }
    true
}

/// The index of the first field of each name.
fn index_map(
    alloc: Global,
    fields: &Vec<(Txt, AvroType)>,
) -> Result<BTreeMap<&str, usize>, AllocError>
    ensures { IfOk result (λ map. HasIndexes map (types.fields_view fields.now.items)) }
{
    let mut map = BTreeMap::new(alloc);
    let mut left = fields.len();
    while left > 0 {
        left -= 1;
        map.insert(fields[left].0.as_str(), left)?;
    }
    Ok(map)
}

/// The index of each name among the fields, and none where one is missing.
pub(crate) fn find_indexes(
    alloc: Global,
    fields: &Vec<(Txt, AvroType)>,
    names: &[&str],
) -> Result<Option<Vec<usize>>, AllocError>
    ensures { IfOk result (λ found.
        option_map (λ v. v.items) found ≡ all_indexes (lent names.now) (types.fields_view fields.now.items)) }
{
    let map = index_map(alloc, fields)?;
    let mut indexes = Vec::with_capacity(alloc, names.len())?;
    for name in names {
        match map.get(name) {
            Some(index) => indexes.push(*index)?,
            None => return Ok(None),
        }
    }
    Ok(Some(indexes))
}
