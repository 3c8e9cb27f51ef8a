//! Fields of a record that are found in a type once, and taken from each datum of the type.

ghost use Rattle.std.specs.Prelude.{◌≡◌, List, ℕ, length, map, true, Some, option_map, IfOk};
ghost use Rattle.pm_avro_schema.specs.View as types;
ghost use Rattle.pm_avro_data.specs.Datum.{view, items_of};
ghost use Rattle.pm_avro_data.specs.HasType.{HasType};
ghost use Rattle.pm_record.specs.Record.{indexes_in, items_in, present_items, selected, all_differ, lent};
ghost use Rattle.pm_record.specs.Record.{AreIndexes, AreApart, AreBelow, at_indexes};

use crate::index::find_indexes;
use crate::record::{present, record_fields};
use pm_avro_data::Datum;
use pm_avro_schema::AvroType;
use std::alloc::{AllocError, Global};
use std::marker::Model;
use std::mem;

/// The indexes of some fields in a record, in the order in which they were asked for.
pub struct Selection {
    indexes: Vec<usize>,
}

impl Drop for Selection {
    fn drop(self) {
        let Selection { indexes } = self;
    }
}

impl Model for Selection {
    ghost use Rattle.std.specs.Prelude.{List, ℕ};
    ghost use Rattle.pm_record.specs.Record.{AreApart};

    ghost Value = { List ℕ };

    ghost view = { λ s. s.indexes.items };

    ghost invariant = { λ s. AreApart s.indexes.items };
}

impl Selection {
    /// The fields of these names in the record that a type is, or that stands in it beside null. None where there is
    /// no such record, or it lacks a name.
    pub fn of(
        alloc: Global,
        kind: &AvroType,
        names: &[&str],
    ) -> Result<Option<Selection>, AllocError>
        requires { all_differ (lent names.now) ≡ true }
        ensures { IfOk result (λ found. found ≡ indexes_in (lent names.now) (types.view kind.now)) }
    {
        let Some(fields) = record_fields(kind) else {
            return Ok(None);
        };
        match find_indexes(alloc, fields, names)? {
            Some(indexes) => Ok(Some(Selection { indexes })),
            None => Ok(None),
        }
    }

    /// What stands at the names in a datum of the type, in their order, moved out of it. None where null stands for
    /// the record.
    pub fn read(
        &self,
        alloc: Global,
        kind: &AvroType,
        datum: Datum,
    ) -> Result<Option<Vec<Datum>>, AllocError>
        requires of_kind { AreIndexes self.now (types.view kind.now) }
        requires of_type { HasType (types.view kind.now) (view datum) }
        ensures { IfOk result (λ found. (names : List (List ℕ)) →
            indexes_in names (types.view kind.now) ≡ Some self.now →
            option_map (λ v. map view v.items) found ≡ selected names (types.view kind.now) (view datum)) }
    {
        match present_values(kind, datum) {
            Some(values) => Ok(Some(take_values(alloc, &self.indexes, values)?)),
            None => Ok(None),
        }
    }
}

/// The values of a record; any other datum has none.
fn values_of(datum: Datum) -> Option<Vec<Datum>>
    ensures { option_map (λ v. items_of (map view v.items)) result ≡ items_in (view datum) }
{
    match datum {
        Datum::Record(values) => Some(values),
        _ => None,
    }
}

/// The values of the record that a datum of the type is, or that stands in it beside null.
fn present_values(kind: &AvroType, datum: Datum) -> Option<Vec<Datum>>
    ensures { option_map (λ v. items_of (map view v.items)) result
        ≡ present_items (types.view kind.now) (view datum) }
{
    match present(kind, datum) {
        Some(left) => values_of(left),
        None => None,
    }
}

/// The values at the indexes, moved.
fn take_values(
    alloc: Global,
    indexes: &Vec<usize>,
    values: Vec<Datum>,
) -> Result<Vec<Datum>, AllocError>
    requires below { AreBelow indexes.now.items (length values.items) }
    requires apart { AreApart indexes.now.items }
    ensures { IfOk result (λ v. map view v.items ≡ at_indexes indexes.now.items (map view values.items)) }
{
    let mut left = values;
    let mut taken = Vec::with_capacity(alloc, indexes.len())?;
    for index in indexes {
        let value = mem::replace(&mut left[*index], Datum::Null);
        taken.push(value)?;
    }
    Ok(taken)
}
