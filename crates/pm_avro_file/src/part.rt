//! The parts that a slice may begin with.

ghost use Rattle.std.specs.Prelude.{◌≡◌, ◌≢◌, ◌++◌, List, ℕ, MatchOption};
ghost use Rattle.pm_avro_schema.specs.View as types;
ghost use Rattle.pm_avro_data.specs.Datum.{view};
ghost use Rattle.pm_avro_data.specs.IsDatum.{IsDatum};
ghost use Rattle.pm_avro_file.specs.Part.{Finds, IsSize};
ghost use Rattle.pm_avro_file.specs.Views.{size_in};

use pm_avro_data::{Datum, Room, decode_in};
use pm_avro_schema::{AvroFault, AvroType};
use std::alloc::{AllocError, Global};

/// What follows a prefix.
pub(crate) fn after_prefix<'a>(prefix: &[u8], bytes: &'a [u8]) -> Option<&'a [u8]>
    ensures { MatchOption result ((rest : List ℕ) → bytes.now ≢ prefix.now ++ rest)
        (λ x. bytes.now ≡ prefix.now ++ x.now) }
{
    bytes.strip_prefix(prefix)
}

/// The datum of the type that the bytes begin with, and the rest.
pub(crate) fn read_datum<'a>(
    room: &mut Room,
    kind: &AvroType,
    bytes: &'a [u8],
) -> Result<Option<(Datum, &'a [u8])>, AllocError>
    ensures { Finds (λ x. (view x.0, x.1.now)) (IsDatum (types.view kind.now)) bytes.now result }
{
    match decode_in(room, kind, bytes) {
        Ok((datum, size)) => Ok(Some((datum, bytes.split_at(size).1))),
        Err(AvroFault::Bad(_)) => Ok(None),
        Err(_) => Err(AllocError),
    }
}

/// The size that a datum is: a long that isn't negative.
fn size_in(datum: &Datum) -> Option<usize>
    ensures { result ≡ size_in (view datum.now) }
{
    match datum {
        Datum::Long(number) if *number >= 0 => Some(*number as usize),
        _ => None,
    }
}

/// The size that the bytes begin with, and the rest.
pub(crate) fn read_size(alloc: Global, bytes: &[u8]) -> Result<Option<(usize, &[u8])>, AllocError>
    ensures { Finds (λ x. (x.0, x.1.now)) IsSize bytes.now result }
{
    let mut room = Room::new(alloc, bytes.len());
    let Some((datum, rest)) = read_datum(&mut room, &AvroType::Long, bytes)? else {
        return Ok(None);
    };
    match size_in(&datum) {
        Some(size) => Ok(Some((size, rest))),
        None => Ok(None),
    }
}
