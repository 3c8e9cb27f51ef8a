//! Packed rows, cut by group.

ghost use Rattle.std.specs.Prelude.{◌≡◌, ◌≤◌, map, IfOk, OnOk};
ghost use Rattle.std.specs.BTreeMap.{get_by};
ghost use Rattle.pm_values.specs.GroupOrder.{group_cmp};
ghost use Rattle.pm_values.specs.declared.group.Group.{Group as GroupView};
ghost use Rattle.pm_values.specs.declared.record.Stamped.{Stamped as StampedView};
ghost use Rattle.pm_model_following.specs.Groups.{bucket_in};
ghost use Rattle.pm_group_rows.specs.Cut.{cut_of, in_only_group, only_group, renumbered, with_row};

use crate::buckets::{buckets_in, values_at};
use crate::columns::partition_of;
use pm_packed::PackedRows;
use pm_schema::TableSchema;
use pm_values::{Group, Row, Stamped};
use std::alloc::{AllocError, Global};
use std::collections::BTreeMap;

/// The rows of each group that has some, in their order, their numbers counted from 0.
pub fn cut_by_group(
    alloc: Global,
    schema: &TableSchema,
    rows: PackedRows,
) -> Result<BTreeMap<Group, PackedRows>, AllocError>
    requires some { 1 ≤ schema.now.options.bucket }
    requires counted { renumbered 0 rows ≡ rows }
    ensures { IfOk result (λ groups. (g : GroupView) → get_by (group_cmp g) groups ≡ cut_of schema.now g rows) }
{
    if schema.options.bucket == 1 && schema.partition.as_slice().is_empty() {
        return in_one_group(alloc, rows);
    }
    let buckets = buckets_in(alloc, schema, &rows)?;
    dealt(alloc, schema, &rows, &buckets)
}

/// All rows, in the group of a table without partition columns that has one bucket.
fn in_one_group(alloc: Global, rows: PackedRows) -> Result<BTreeMap<Group, PackedRows>, AllocError>
    ensures { IfOk result (λ groups. (g : GroupView) → get_by (group_cmp g) groups ≡ in_only_group g rows) }
{
    let mut groups = BTreeMap::new(alloc);
    if rows.len() > 0 {
        groups.insert(only_group(alloc), rows)?;
    }
    Ok(groups)
}

/// The group of all rows of a table without partition columns that has one bucket.
fn only_group(alloc: Global) -> Group
    ensures { result ≡ only_group }
{
    Group {
        partition: Row::new(Vec::new(alloc)),
        bucket: 0,
    }
}

/// The rows of each group, where these are the buckets of all rows.
fn dealt(
    alloc: Global,
    schema: &TableSchema,
    rows: &PackedRows,
    buckets: &[u32],
) -> Result<BTreeMap<Group, PackedRows>, AllocError>
    requires buckets { buckets.now ≡ map (λ (x : StampedView). bucket_in schema.now x.row) rows.now }
    ensures { IfOk result (λ groups. (g : GroupView) → get_by (group_cmp g) groups ≡ cut_of schema.now g rows.now) }
{
    let partition = partition_of(alloc, schema)?;
    let mut groups = BTreeMap::new(alloc);
    for index in 0..rows.len() {
        let row = rows.unpacked(alloc, index)?;
        let group = Group {
            partition: values_at(alloc, &partition, &row.row)?,
            bucket: buckets[index],
        };
        put_row(alloc, &mut groups, group, row)?;
    }
    Ok(groups)
}

/// Puts a row to those of its group, with the next number there.
fn put_row(
    alloc: Global,
    groups: &mut BTreeMap<Group, PackedRows>,
    group: Group,
    row: Stamped,
) -> Result<(), AllocError>
    ensures { OnOk result ((g : GroupView) →
        get_by (group_cmp g) groups.new ≡ with_row g group row (get_by (group_cmp g) groups.old)) }
{
    let own = groups.entry(group)?.or_insert(PackedRows::new(alloc));
    let Stamped {
        key,
        seq: _,
        kind,
        row,
    } = row;
    let seq = own.len() as u64;
    own.push(&Stamped {
        key,
        seq,
        kind,
        row,
    })?;
    Ok(())
}
