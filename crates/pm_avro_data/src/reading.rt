//! Reading data.

ghost use Rattle.std.specs.Prelude.{◌≡◌, ℕ, map, IfOk, IfErr, MatchResult};
ghost use Rattle.pm_avro_schema.specs.View as types;
ghost use Rattle.pm_avro_data.specs.Datum.{Data, view, entry_view};
ghost use Rattle.pm_avro_data.specs.HasType.{HasType};
ghost use Rattle.pm_avro_data.specs.Begins.{Begins, HasCause};
ghost use Rattle.pm_avro_data.specs.Reading.{Yields, with_earlier, body_at, all_blocks_at};
ghost use Rattle.pm_avro_data.specs.Reading.{entry_at, datum_at, fields_at, branch_at};

use crate::block::{Head, read_head};
use crate::datum::Datum;
use crate::leaf::{boolean_datum, bytes_datum, int_datum, long_datum, read_text, text_datum};
use crate::number::read_index;
use crate::room::Room;
use pm_avro_schema::{AvroFault, AvroType};
use pm_base::Txt;
use std::alloc::Global;

/// The datum of a type that the bytes begin with, and the rest.
#[cycle(decode)]
#[tactic(auto, unfolding(crate::specs::Reading::datum_at))]
pub(crate) fn read_datum<'a>(
    room: &mut Room,
    kind: &AvroType,
    bytes: &'a [u8],
) -> Result<(Datum, &'a [u8]), AvroFault>
    ensures { Yields (λ x. (view x.0, x.1.now)) result (datum_at (types.view kind.now) bytes.now) }
{
    match kind {
        AvroType::Null => Ok((Datum::Null, bytes)),
        AvroType::Boolean => boolean_datum(bytes),
        AvroType::Int => int_datum(bytes),
        AvroType::Long => long_datum(bytes),
        AvroType::Bytes => bytes_datum(room.alloc, bytes),
        AvroType::Text => text_datum(room.alloc, bytes),
        AvroType::Record(fields) => {
            let (values, rest) = read_fields(room, fields, bytes)?;
            Ok((Datum::Record(values), rest))
        }
        AvroType::Union(branches) => {
            let (index, rest) = read_index(bytes).ok_or(AvroFault::Bad(0))?;
            let (datum, rest) = read_branch(room, branches, index, rest)?;
            Ok((Datum::branch(room.alloc, index, datum)?, rest))
        }
        AvroType::Array(kind) => {
            let (items, rest) = read_array(room, kind, bytes)?;
            Ok((Datum::Array(items), rest))
        }
        AvroType::Map(kind) => {
            let (entries, rest) = read_map(room, kind, bytes)?;
            Ok((Datum::Map(entries), rest))
        }
    }
}

/// The values of a record's fields, and the rest.
#[cycle(decode)]
fn read_fields<'a>(
    room: &mut Room,
    fields: &Vec<(Txt, AvroType)>,
    bytes: &'a [u8],
) -> Result<(Vec<Datum>, &'a [u8]), AvroFault>
    ensures { Yields (λ x. (map view x.0.items, x.1.now)) result
        (fields_at (types.fields_view fields.now.items) bytes.now) }
{
    room.take(fields.len())?;
    let mut values = Vec::with_capacity(room.alloc, fields.len())?;
    let mut rest = bytes;
    for field in fields {
        let (value, after) = read_datum(room, &field.1, rest)?;
        values.push(value)?;
        rest = after;
    }
    Ok((values, rest))
}

/// The datum of the branch at this index, and the rest.
#[cycle(decode)]
fn read_branch<'a>(
    room: &mut Room,
    branches: &Vec<AvroType>,
    index: u32,
    bytes: &'a [u8],
) -> Result<(Datum, &'a [u8]), AvroFault>
    ensures { Yields (λ x. (view x.0, x.1.now)) result
        (branch_at (types.branches_view branches.now.items) index bytes.now) }
{
    match branches.get(index as usize) {
        Some(kind) => read_datum(room, kind, bytes),
        None => Err(AvroFault::Bad(0)),
    }
}

/// The items of an array, block by block, and the rest.
#[cycle(decode)]
fn read_array<'a>(
    room: &mut Room,
    kind: &AvroType,
    bytes: &'a [u8],
) -> Result<(Vec<Datum>, &'a [u8]), AvroFault>
    ensures { Yields (λ x. (map view x.0.items, x.1.now)) result
        (all_blocks_at (datum_at (types.view kind.now)) bytes.now) }
{
    let mut items = Vec::new(room.alloc);
    let mut rest = bytes;
    loop {
        let (head, after) = read_head(rest)?;
        if head.count == 0 {
            return Ok((items, after));
        }
        rest = read_items(room, kind, head, after, &mut items)?;
    }
}

/// Adds the items of a block, and gives what follows them.
#[cycle(decode)]
fn read_items<'a>(
    room: &mut Room,
    kind: &AvroType,
    head: Head,
    bytes: &'a [u8],
    items: &mut Vec<Datum>,
) -> Result<&'a [u8], AvroFault>
    ensures { Yields (λ rest. (map view items.new.items, rest.now)) result
        (with_earlier (map view items.old.items)
        (body_at (datum_at (types.view kind.now)) head bytes.now)) }
{
    let mut rest = bytes;
    for _ in 0..head.count {
        let (item, after) = read_datum(room, kind, rest)?;
        items.push(item)?;
        rest = after;
    }
    if head.is_whole(bytes, rest) {
        Ok(rest)
    } else {
        Err(AvroFault::Bad(0))
    }
}

/// The entries of a map, block by block, and the rest.
#[cycle(decode)]
fn read_map<'a>(
    room: &mut Room,
    kind: &AvroType,
    bytes: &'a [u8],
) -> Result<(Vec<(Txt, Datum)>, &'a [u8]), AvroFault>
    ensures { Yields (λ x. (map entry_view x.0.items, x.1.now)) result
        (all_blocks_at (entry_at (datum_at (types.view kind.now))) bytes.now) }
{
    let mut entries = Vec::new(room.alloc);
    let mut rest = bytes;
    loop {
        let (head, after) = read_head(rest)?;
        if head.count == 0 {
            return Ok((entries, after));
        }
        rest = read_entries(room, kind, head, after, &mut entries)?;
    }
}

/// Adds the entries of a block, and gives what follows them.
#[cycle(decode)]
fn read_entries<'a>(
    room: &mut Room,
    kind: &AvroType,
    head: Head,
    bytes: &'a [u8],
    entries: &mut Vec<(Txt, Datum)>,
) -> Result<&'a [u8], AvroFault>
    ensures { Yields (λ rest. (map entry_view entries.new.items, rest.now)) result
        (with_earlier (map entry_view entries.old.items)
        (body_at (entry_at (datum_at (types.view kind.now))) head bytes.now)) }
{
    let mut rest = bytes;
    for _ in 0..head.count {
        let (entry, after) = read_entry(room, kind, rest)?;
        entries.push(entry)?;
        rest = after;
    }
    if head.is_whole(bytes, rest) {
        Ok(rest)
    } else {
        Err(AvroFault::Bad(0))
    }
}

/// A map's key and its value, and the rest.
#[cycle(decode)]
#[tactic(auto, unfolding(crate::specs::Reading::entry_at))]
fn read_entry<'a>(
    room: &mut Room,
    kind: &AvroType,
    bytes: &'a [u8],
) -> Result<((Txt, Datum), &'a [u8]), AvroFault>
    ensures { Yields (λ x. (entry_view x.0, x.1.now)) result
        (entry_at (datum_at (types.view kind.now)) bytes.now) }
{
    let (key, rest) = read_text(room.alloc, bytes)?;
    let (value, rest) = read_datum(room, kind, rest)?;
    Ok(((key, value), rest))
}

/// The datum of the type that the bytes begin with, and how many bytes it takes. More bytes may follow. Faults are
/// `Memory`, and `Bad` at 0 where the bytes begin with no datum of the type. Memory also runs out where records have
/// more fields than `Room` allows for the number of bytes.
pub fn decode(alloc: Global, kind: &AvroType, bytes: &[u8]) -> Result<(Datum, usize), AvroFault>
    // What is answered is there.
    ensures found { IfOk result (λ x. Begins (types.view kind.now) bytes.now (view x.0) x.1) }
    ensures typed { IfOk result (λ x. HasType (types.view kind.now) (view x.0)) }
    // What is there is answered, unless memory runs out.
    ensures only { (d : Data) (n : ℕ) → Begins (types.view kind.now) bytes.now d n →
        MatchResult result (λ x. (view x.0 ≡ d) × (x.1 ≡ n)) (λ e. e ≡ AvroFault.Memory) }
    // `Bad` comes where nothing is there.
    ensures bad { IfErr result (HasCause (types.view kind.now) bytes.now) }
{
    decode_in(&mut Room::new(alloc, bytes.len()), kind, bytes)
}

/// The same in a room, which is made once for a text of many data. Each takes from it what its records need.
pub fn decode_in(
    room: &mut Room,
    kind: &AvroType,
    bytes: &[u8],
) -> Result<(Datum, usize), AvroFault>
    ensures found { IfOk result (λ x. Begins (types.view kind.now) bytes.now (view x.0) x.1) }
    ensures typed { IfOk result (λ x. HasType (types.view kind.now) (view x.0)) }
    ensures only { (d : Data) (n : ℕ) → Begins (types.view kind.now) bytes.now d n →
        MatchResult result (λ x. (view x.0 ≡ d) × (x.1 ≡ n)) (λ e. e ≡ AvroFault.Memory) }
    ensures bad { IfErr result (HasCause (types.view kind.now) bytes.now) }
{
    let (datum, rest) = read_datum(room, kind, bytes)?;
    Ok((datum, bytes.len() - rest.len()))
}
