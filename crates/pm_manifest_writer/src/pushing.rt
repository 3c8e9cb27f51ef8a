//! Data that are added to those of a record.

ghost use Rattle.std.specs.Prelude.{◌≡◌, ◌++◌, ◌∷◌, [], map, OnOk};
ghost use Rattle.pm_avro_data.specs.Datum.{view};

use pm_avro_data::Datum;
use std::alloc::AllocError;

/// Adds a datum to others. A record is put together by calls of functions that only add to it: one that held it itself
/// would have to let all of it go wherever memory may run out.
pub(crate) fn push_datum(values: &mut Vec<Datum>, datum: Datum) -> Result<(), AllocError>
    ensures { OnOk result (map view values.new.items ≡ map view values.old.items ++ view datum ∷ []) }
{
    values.push(datum)?;
    Ok(())
}
