//! Statistics of columns of which nothing is known.

ghost use Rattle.std.specs.Prelude.{◌≡◌, IfOk};
ghost use Rattle.pm_avro_data.specs.Datum.{view};
ghost use Rattle.pm_manifest.specs.Listed.{unknown_statistics};

use pm_avro_data::{Datum, Leaf};
use pm_binrow::to_binary;
use pm_values::{ColType, Row};
use std::alloc::{AllocError, Global};

/// How many records stand in a block at most.
pub(crate) const MOST_IN_BLOCK: usize = 1024;

/// The statistics of columns of these types: rows of nulls, and no counts.
pub(crate) fn unknown_statistics(alloc: Global, types: &[ColType]) -> Result<Datum, AllocError>
    ensures { IfOk result (λ d. view d ≡ unknown_statistics types.now) }
{
    let nulls = to_binary(alloc, types, &Row::new(Vec::new(alloc)))?;
    let mut values = Vec::with_capacity(alloc, 3)?;
    values.push(Datum::Bytes(Vec::from_slice(alloc, &nulls)?))?;
    values.push(Datum::Bytes(nulls))?;
    values.push(Datum::Branch(0, Leaf::Null))?;
    Ok(Datum::Record(values))
}
