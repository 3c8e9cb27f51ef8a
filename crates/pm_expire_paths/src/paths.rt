//! All paths that an expiry removes.

ghost use Rattle.std.specs.Prelude.{◌≡◌, ◌≤◌, ◌++◌, ◌-◌, IfOk};
ghost use Rattle.pm_model_expiry.specs.Removals.{floor_paths, origin_paths, removals, snapshot_paths};

use pm_base::Txt;
use pm_consumer_files::floor_path;
use pm_paths::{snapshot_file, snapshot_path};
use pm_schema::TableSchema;
use std::alloc::{AllocError, Global};
use std::collections::VecDeque;

/// The snapshots of an expiry: the first after the origin, the first that is kept, and the number of its floor.
#[derive(Clone, Copy)]
pub struct Expiring {
    pub first: u64,
    pub end: u64,
    pub own: u64,
}

/// The origin and the snapshots below the end, then these files, then these floors.
pub fn removals(
    alloc: Global,
    schema: &TableSchema,
    expiring: Expiring,
    dropped: Vec<Txt>,
    floors: &[u64],
) -> Result<VecDeque<Txt>, AllocError>
    requires { expiring.first ≤ expiring.end }
    ensures { IfOk result (λ paths. paths.items ≡ removals (record {
      schema = schema.now;
      first = expiring.first;
      end = expiring.end;
      own = expiring.own;
    }) dropped.items floors.now) }
{
    let paths = origin_paths(alloc, schema)?;
    let mut paths = with_snapshots(alloc, paths, expiring)?;
    let mut dropped = dropped;
    paths.append(&mut dropped)?;
    Ok(VecDeque::from_vec(with_floors(alloc, paths, floors)?))
}

/// The path of the origin, where the schema names one.
fn origin_paths(alloc: Global, schema: &TableSchema) -> Result<Vec<Txt>, AllocError>
    ensures { IfOk result (λ paths. paths.items ≡ origin_paths schema.now.origin) }
{
    let mut paths = Vec::new(alloc);
    if let Some(name) = &schema.origin {
        paths.push(snapshot_file(alloc, name)?)?;
    }
    Ok(paths)
}

/// With the paths of the snapshots below the end.
fn with_snapshots(
    alloc: Global,
    paths: Vec<Txt>,
    expiring: Expiring,
) -> Result<Vec<Txt>, AllocError>
    requires { expiring.first ≤ expiring.end }
    ensures { IfOk result (λ all. all.items
        ≡ paths.items ++ snapshot_paths expiring.first (expiring.end - expiring.first)) }
{
    let mut all = paths;
    for id in expiring.first..expiring.end {
        all.push(snapshot_path(alloc, id)?)?;
    }
    Ok(all)
}

/// With the paths of these floors.
fn with_floors(alloc: Global, paths: Vec<Txt>, floors: &[u64]) -> Result<Vec<Txt>, AllocError>
    ensures { IfOk result (λ all. all.items ≡ paths.items ++ floor_paths floors.now) }
{
    let mut all = paths;
    for floor in floors {
        all.push(floor_path(alloc, *floor)?)?;
    }
    Ok(all)
}
