//! What of a table's schema its manifests depend on.

ghost use Rattle.std.specs.Prelude.{◌≡◌, ℕ, ◌∷◌, List, Option, option_map, IfOk, map};
ghost use Rattle.std.specs.List.{position};
ghost use Rattle.std.specs.Str.{bytes_eq};
ghost use Rattle.pm_manifest.specs.Shape.{apart_from, key_of, or_null, rest_of, shape_of, type_of};

use pm_base::Txt;
use pm_schema::TableSchema;
use pm_values::{ColType, Column, Key, Row, Value};
use std::alloc::{AllocError, Global};
use std::marker::Model;

/// The columns that partitions, keys and statistics are rows of, and how many buckets there are.
pub struct TableShape {
    /// The types of the partition columns, in their order.
    pub partition: Vec<ColType>,
    /// The types of the primary key's other columns, in the key's order.
    pub rest: Vec<ColType>,
    /// The types of all columns.
    pub columns: Vec<ColType>,
    /// Of each column of the primary key the index of the partition column that it is, if it is one.
    places: Vec<Option<usize>>,
    pub buckets: u32,
}

impl Drop for TableShape {
    fn drop(self) {
        let TableShape {
            partition,
            rest,
            columns,
            places,
            buckets,
        } = self;
    }
}

impl Model for TableShape {
    ghost use Rattle.pm_manifest.specs.Shape.{Shape};

    ghost Value = { Shape };

    ghost view = { λ s. record {
      partition = s.partition.items;
      rest = s.rest.items;
      columns = s.columns.items;
      places = s.places.items;
      buckets = s.buckets;
    } };
}

impl TableShape {
    /// The shape of a table of this schema.
    pub fn of(alloc: Global, schema: &TableSchema) -> Result<TableShape, AllocError>
        ensures { IfOk result (λ s. s ≡ shape_of schema.now) }
    {
        let columns = schema.columns.as_slice();
        let partition = schema.partition.as_slice();
        let primary = schema.primary.as_slice();
        Ok(TableShape {
            partition: types_of(alloc, columns, partition)?,
            rest: rest_types(alloc, columns, partition, primary)?,
            columns: all_types(alloc, columns)?,
            places: places_of(alloc, partition, primary)?,
            buckets: schema.options.bucket,
        })
    }

    /// The key of the values of a partition and of the other columns.
    pub fn key(&self, alloc: Global, partition: &Row, rest: &Row) -> Result<Key, AllocError>
        ensures { IfOk result (λ key. key ≡ key_of self.now.places partition.now rest.now) }
    {
        let values = key_values(alloc, &self.places, partition.values(), rest.values())?;
        Ok(Key::new(values))
    }

    /// The values of a key that aren't the partition's.
    pub fn rest(&self, alloc: Global, key: &Key) -> Result<Row, AllocError>
        ensures { IfOk result (λ rest. rest ≡ rest_of self.now.places key.now) }
    {
        Ok(Row::new(rest_values(alloc, &self.places, key.values())?))
    }
}

/// The values of a key of the values of a partition and of the other columns.
fn key_values(
    alloc: Global,
    places: &[Option<usize>],
    partition: &[Value],
    rest: &[Value],
) -> Result<Vec<Value>, AllocError>
    ensures { IfOk result (λ v. v.items ≡ key_of places.now partition.now rest.now) }
{
    let mut values = Vec::with_capacity(alloc, places.len())?;
    let mut left = rest;
    for place in places {
        let (value, later) = value_at(*place, partition, left);
        values.push(copied(alloc, value)?)?;
        left = later;
    }
    Ok(values)
}

/// The value of a column of the primary key, if there is one, and the values of the other columns after it.
fn value_at<'a>(
    place: Option<usize>,
    partition: &'a [Value],
    rest: &'a [Value],
) -> (Option<&'a Value>, &'a [Value])
    ensures { (places : List (Option ℕ)) → key_of (place ∷ places) partition.now rest.now
        ≡ or_null (option_map (λ v. v.now) result.0) ∷ key_of places partition.now result.1.now }
{
    match place {
        Some(index) => (partition.get(index), rest),
        None => match rest.split_first() {
            Some((value, later)) => (Some(value), later),
            None => (None, rest),
        },
    }
}

/// The values of a key that aren't the partition's.
fn rest_values(
    alloc: Global,
    places: &[Option<usize>],
    key: &[Value],
) -> Result<Vec<Value>, AllocError>
    ensures { IfOk result (λ v. v.items ≡ rest_of places.now key.now) }
{
    let mut values = Vec::new(alloc);
    for (place, value) in places.iter().zip(key) {
        if place.is_none() {
            values.push(value.copy(alloc)?)?;
        }
    }
    Ok(values)
}

/// An equal value, and null where there is none.
fn copied(alloc: Global, value: Option<&Value>) -> Result<Value, AllocError>
    ensures { IfOk result (λ v. v ≡ or_null (option_map (λ v. v.now) value.entry)) }
{
    match value {
        Some(value) => value.copy(alloc),
        None => Ok(Value::Null),
    }
}

/// The type of the column with a name.
fn type_of(columns: &[Column], name: &str) -> ColType
    ensures { result ≡ type_of columns.now name.now }
{
    for column in columns {
        if column.name.as_str() == name {
            return column.kind;
        }
    }
    ColType::Text
}

/// The types of the columns with these names.
fn types_of(alloc: Global, columns: &[Column], names: &[Txt]) -> Result<Vec<ColType>, AllocError>
    ensures { IfOk result (λ v. v.items ≡ map (type_of columns.now) names.now) }
{
    let mut types = Vec::with_capacity(alloc, names.len())?;
    for name in names {
        types.push(type_of(columns, name.as_str()))?;
    }
    Ok(types)
}

/// The types of all columns.
fn all_types(alloc: Global, columns: &[Column]) -> Result<Vec<ColType>, AllocError>
    ensures { IfOk result (λ v. v.items ≡ map (λ c. c.kind) columns.now) }
{
    let mut types = Vec::with_capacity(alloc, columns.len())?;
    for column in columns {
        types.push(column.kind)?;
    }
    Ok(types)
}

/// The index of a name among others.
fn place_of(names: &[Txt], name: &str) -> Option<usize>
    ensures { result ≡ position (bytes_eq name.now) names.now }
{
    names.iter().position(|other| name == other.as_str())
}

/// The types of the columns with these names that aren't among others.
fn rest_types(
    alloc: Global,
    columns: &[Column],
    others: &[Txt],
    names: &[Txt],
) -> Result<Vec<ColType>, AllocError>
    ensures { IfOk result (λ v. v.items ≡ map (type_of columns.now) (apart_from others.now names.now)) }
{
    let mut types = Vec::new(alloc);
    for name in names {
        if place_of(others, name.as_str()).is_none() {
            types.push(type_of(columns, name.as_str()))?;
        }
    }
    Ok(types)
}

/// Of each name its index among others, if it is one.
fn places_of(alloc: Global, others: &[Txt], names: &[Txt]) -> Result<Vec<Option<usize>>, AllocError>
    ensures { IfOk result (λ v. v.items ≡ map (λ name. position (bytes_eq name) others.now) names.now) }
{
    let mut places = Vec::with_capacity(alloc, names.len())?;
    for name in names {
        places.push(place_of(others, name.as_str()))?;
    }
    Ok(places)
}
