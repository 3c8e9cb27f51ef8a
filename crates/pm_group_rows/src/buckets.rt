//! The buckets of rows.

ghost use Rattle.std.specs.Prelude.{◌≡◌, ◌↔◌, ◌≤◌, [], ◌∷◌, length, map, replicate, IfOk, IfSome, IsTrue};
ghost use Rattle.pm_values.specs.declared.column.ColType.TheVariants.{BigInt};
ghost use Rattle.pm_values.specs.declared.record.Stamped.{Stamped as StampedView};
ghost use Rattle.pm_values.specs.declared.value.Value.TheVariants.{Int as Whole};
ghost use Rattle.pm_binrow.specs.Hashing.{bucket_of, hash_of};
ghost use Rattle.pm_binrow.specs.Row.{body};
ghost use Rattle.pm_lanes.specs.Longs.{long_bucket};
ghost use Rattle.pm_model_following.specs.Groups.{bucket_in};
ghost use Rattle.pm_model_history.specs.Merge.{key_of, value_at};

use crate::columns::{bucket_key_of, kinds_at};
use pm_binrow::{bucket_of, hash, to_binary};
use pm_lanes::buckets_of;
use pm_packed::PackedRows;
use pm_row_slots::{Seen, SeenRow};
use pm_schema::TableSchema;
use pm_values::{ColType, Row, Value};
use std::alloc::{AllocError, Global};

/// How many bytes stand before the body of a row.
const BEFORE_BODY: usize = 4;

/// The bucket of each row.
pub(crate) fn buckets_in(
    alloc: Global,
    schema: &TableSchema,
    rows: &PackedRows,
) -> Result<Vec<u32>, AllocError>
    requires some { 1 ≤ schema.now.options.bucket }
    ensures { IfOk result (λ buckets. buckets.items ≡ map (λ (x : StampedView). bucket_in schema.now x.row) rows.now) }
{
    if schema.options.bucket == 1 {
        return first_buckets(alloc, rows.len());
    }
    let columns = bucket_key_of(alloc, schema)?;
    let kinds = kinds_at(alloc, schema, &columns)?;
    if is_one_long(&kinds) {
        if let Some(keys) = longs_at(alloc, rows, columns[0])? {
            return long_buckets(alloc, &keys, schema.options.bucket);
        }
    }
    hashed_buckets(alloc, rows, &columns, &kinds, schema.options.bucket)
}

/// The first bucket, so many times.
fn first_buckets(alloc: Global, count: usize) -> Result<Vec<u32>, AllocError>
    ensures { IfOk result (λ places. places.items ≡ replicate count 0) }
{
    let mut places = Vec::new(alloc);
    places.resize(count, 0)?;
    Ok(places)
}

/// Whether columns of these types are one BIGINT.
fn is_one_long(kinds: &[ColType]) -> bool
    ensures { IsTrue result ↔ (kinds.now ≡ BigInt ∷ []) }
{
    kinds.len() == 1 && matches!(kinds[0], ColType::BigInt)
}

/// The numbers that all rows have at an index; nothing where one has none there.
fn longs_at(alloc: Global, rows: &PackedRows, index: usize) -> Result<Option<Vec<i64>>, AllocError>
    ensures { IfOk result (λ found. IfSome found (λ longs.
        map (λ (x : StampedView). value_at x.row index) rows.now ≡ map Whole longs.items)) }
{
    let mut longs = Vec::with_capacity(alloc, rows.len())?;
    let mut seen = SeenRow::new(alloc);
    for at in 0..rows.len() {
        rows.lend(at, &mut seen)?;
        match seen.row.get(index) {
            Some(Seen::Int(number)) => longs.push(*number)?,
            _ => return Ok(None),
        }
    }
    Ok(Some(longs))
}

/// The bucket of each key that is this number alone, among so many.
fn long_buckets(alloc: Global, keys: &[i64], buckets: u32) -> Result<Vec<u32>, AllocError>
    requires some { 1 ≤ buckets }
    ensures { IfOk result (λ places. places.items ≡ map (long_bucket buckets) keys.now) }
{
    let mut places = first_buckets(alloc, keys.len())?;
    buckets_of(keys, buckets, &mut places);
    Ok(places)
}

/// The bucket among so many of each row, whose key beside the partition has these columns, of these types.
fn hashed_buckets(
    alloc: Global,
    rows: &PackedRows,
    columns: &[usize],
    kinds: &[ColType],
    buckets: u32,
) -> Result<Vec<u32>, AllocError>
    requires some { 1 ≤ buckets }
    requires kinds { length kinds.now ≡ length columns.now }
    ensures { IfOk result (λ places. places.items ≡ map (λ (x : StampedView).
        bucket_of (hash_of (body kinds.now (key_of columns.now x.row))) buckets) rows.now) }
{
    let mut places = Vec::with_capacity(alloc, rows.len())?;
    for at in 0..rows.len() {
        let own = rows.unpacked(alloc, at)?;
        places.push(hashed_bucket(alloc, &own.row, columns, kinds, buckets)?)?;
    }
    Ok(places)
}

/// The same of one row.
fn hashed_bucket(
    alloc: Global,
    row: &Row,
    columns: &[usize],
    kinds: &[ColType],
    buckets: u32,
) -> Result<u32, AllocError>
    requires some { 1 ≤ buckets }
    requires kinds { length kinds.now ≡ length columns.now }
    ensures { IfOk result (λ place.
        place ≡ bucket_of (hash_of (body kinds.now (key_of columns.now row.now))) buckets) }
{
    let key = values_at(alloc, columns, row)?;
    let bytes = to_binary(alloc, kinds, &key)?;
    let (_, body) = bytes.split_at(BEFORE_BODY);
    Ok(bucket_of(hash(body), buckets))
}

/// The values of a row at indexes, as a row.
pub(crate) fn values_at(alloc: Global, columns: &[usize], row: &Row) -> Result<Row, AllocError>
    ensures { IfOk result (λ values. values ≡ key_of columns.now row.now) }
{
    let mut values = Vec::with_capacity(alloc, columns.len())?;
    for column in columns {
        values.push(value_at(row.values(), *column, alloc)?)?;
    }
    Ok(Row::new(values))
}

/// The value at an index, null where there is none.
fn value_at(values: &[Value], index: usize, alloc: Global) -> Result<Value, AllocError>
    ensures { IfOk result (λ value. value ≡ value_at values.now index) }
{
    match values.get(index) {
        Some(value) => value.copy(alloc),
        None => Ok(Value::Null),
    }
}
