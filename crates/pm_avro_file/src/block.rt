//! Blocks.

ghost use Rattle.std.specs.Prelude.{◌≡◌, ◌≤◌, [], map, length, IfOk, IfSome};
ghost use Rattle.std.specs.List.{AllByRecursion};
ghost use Rattle.pm_avro_schema.specs.View as types;
ghost use Rattle.pm_avro_data.specs.Datum.{view};
ghost use Rattle.pm_avro_data.specs.HasType.{HasType};
ghost use Rattle.pm_avro_file.specs.Container.{IsBlock};
ghost use Rattle.pm_avro_file.specs.Part.{Finds, AreData};
ghost use Rattle.pm_avro_file.specs.Reader.{AnswersAt, answer_of};

use crate::part::{after_prefix, read_datum, read_size};
use crate::stop::Stop;
use pm_avro_data::{Datum, Room};
use pm_avro_schema::AvroType;
use std::alloc::{AllocError, Global};

/// As many data of the type, where they are all of the bytes.
fn read_data(
    alloc: Global,
    kind: &AvroType,
    count: usize,
    bytes: &[u8],
) -> Result<Option<Vec<Datum>>, AllocError>
    ensures { Finds (λ v. (map view v.items, [])) (AreData (types.view kind.now) count)
        bytes.now result }
{
    let mut room = Room::new(alloc, bytes.len());
    let mut data = Vec::new(alloc);
    let mut rest = bytes;
    for _ in 0..count {
        let Some((datum, after)) = read_datum(&mut room, kind, rest)? else {
            return Ok(None);
        };
        data.push(datum)?;
        rest = after;
    }
    if rest.is_empty() {
        Ok(Some(data))
    } else {
        Ok(None)
    }
}

/// The block that the bytes begin with, and the rest.
fn read_block<'a>(
    alloc: Global,
    kind: &AvroType,
    marker: &[u8],
    bytes: &'a [u8],
) -> Result<Option<(Vec<Datum>, &'a [u8])>, AllocError>
    ensures { Finds (λ x. (map view x.0.items, x.1.now)) (IsBlock (types.view kind.now) marker.now)
        bytes.now result }
{
    let Some((count, middle)) = read_size(alloc, bytes)? else {
        return Ok(None);
    };
    let Some((size, left)) = read_size(alloc, middle)? else {
        return Ok(None);
    };
    if size < count || left.len() < size {
        return Ok(None);
    }
    let (content, after) = left.split_at(size);
    let Some(rest) = after_prefix(marker, after) else {
        return Ok(None);
    };
    match read_data(alloc, kind, count, content)? {
        Some(data) => Ok(Some((data, rest))),
        None => Ok(None),
    }
}

/// The block at this offset of the file, and the offset after it, or none at the end.
pub(crate) fn answer_at(
    alloc: Global,
    kind: &AvroType,
    marker: &[u8],
    bytes: &[u8],
    offset: usize,
) -> Result<Option<(Vec<Datum>, usize)>, Stop>
    requires { offset ≤ length bytes.now }
    ensures answers { AnswersAt (λ v. map view v.items) (types.view kind.now) marker.now bytes.now offset
        (answer_of result) }
    ensures typed { IfOk result (λ found. IfSome found (λ x.
        AllByRecursion (HasType (types.view kind.now)) (map view x.0.items))) }
{
    if offset == bytes.len() {
        return Ok(None);
    }
    match read_block(alloc, kind, marker, bytes.split_at(offset).1)? {
        Some((data, rest)) => Ok(Some((data, bytes.len() - rest.len()))),
        None => Err(Stop::Bad(offset)),
    }
}
