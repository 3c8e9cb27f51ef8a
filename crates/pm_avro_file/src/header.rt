//! Headers.

ghost use Rattle.std.specs.Prelude.{◌≡◌, Err, map, option_map, IfOk};
ghost use Rattle.pm_avro_schema.specs.Avro as avro;
ghost use Rattle.pm_avro_schema.specs.Fault.{fault_of};
ghost use Rattle.pm_base.specs.Outcome.{Gives};
ghost use Rattle.pm_avro_schema.specs.View as types;
ghost use Rattle.pm_avro_data.specs.Datum.{view, entry_view};
ghost use Rattle.pm_avro_file.specs.Container.{last_value};
ghost use Rattle.pm_avro_file.specs.Header.{codec_fault, declared_by, kind_in};
ghost use Rattle.pm_avro_file.specs.Part.{Shows};
ghost use Rattle.pm_avro_file.specs.Views.{content, entries_in, newer, pairs_view};

use crate::part::{after_prefix, read_datum};
use pm_avro_data::{Datum, Room};
use pm_avro_schema::{AvroFault, AvroType, parse};
use pm_base::Txt;
use std::alloc::{AllocError, Global};
use std::str;

/// The four bytes that a file begins with.
pub(crate) const MAGIC: [u8; 4] = [79, 98, 106, 1];

/// The type of metadata: a map from texts to bytes.
pub(crate) fn metadata_kind(alloc: Global) -> Result<AvroType, AllocError>
    ensures { IfOk result (λ t. types.view t ≡ avro.map_of avro.bytes) }
{
    Ok(AvroType::Map(Box::new(alloc, AvroType::Bytes)?))
}

/// What stands before the blocks.
#[derive(Drop)]
pub(crate) struct Preamble {
    pub(crate) entries: Vec<(Txt, Datum)>,
    pub(crate) marker: [u8; 16],
    /// How many bytes it takes.
    pub(crate) size: usize,
}

/// The preamble of a file, whatever its metadata say.
pub(crate) fn read_preamble(alloc: Global, bytes: &[u8]) -> Result<Option<Preamble>, AllocError>
    ensures { Shows bytes.now result }
{
    let Some(start) = after_prefix(&MAGIC, bytes) else {
        return Ok(None);
    };
    let kind = metadata_kind(alloc)?;
    let mut room = Room::new(alloc, start.len());
    let Some((metadata, left)) = read_datum(&mut room, &kind, start)? else {
        return Ok(None);
    };
    let Some(entries) = entries_in(metadata) else {
        return Ok(None);
    };
    let Some((marker, rest)) = left.split_first_chunk::<16>() else {
        return Ok(None);
    };
    let preamble = Preamble {
        entries,
        marker: *marker,
        size: bytes.len() - rest.len(),
    };
    Ok(Some(preamble))
}

/// The entries of a datum that is a map.
fn entries_in(datum: Datum) -> Option<Vec<(Txt, Datum)>>
    ensures { option_map (λ v. map entry_view v.items) result ≡ entries_in (view datum) }
{
    match datum {
        Datum::Map(entries) => Some(entries),
        _ => None,
    }
}

/// The value of a key: where it stands more than once its last one.
pub(crate) fn last_value<'a>(entries: &'a [(Txt, Datum)], key: &str) -> Option<&'a [u8]>
    ensures { option_map (λ b. b.now) result ≡ last_value key.now (pairs_view entries.now) }
{
    let mut found = None;
    for entry in entries {
        found = newer(entry, key, found);
    }
    found
}

/// The value of an entry that has the key, or else what was found before it.
fn newer<'a>(entry: &'a (Txt, Datum), key: &str, found: Option<&'a [u8]>) -> Option<&'a [u8]>
    ensures { option_map (λ b. b.now) result
        ≡ newer key.now (entry_view entry.now) (option_map (λ b. b.now) found.entry) }
{
    if entry.0.as_str() == key {
        Some(content_of(&entry.1))
    } else {
        found
    }
}

/// The bytes of a datum that is bytes.
fn content_of(datum: &Datum) -> &[u8]
    ensures { result.now ≡ content (view datum.now) }
{
    match datum {
        Datum::Bytes(content) => content,
        _ => &[],
    }
}

/// The type of the data, as the metadata have it. The codec is judged first.
pub(crate) fn kind_in(alloc: Global, entries: &[(Txt, Datum)]) -> Result<AvroType, AvroFault>
    ensures { Gives types.view fault_of result (kind_in (pairs_view entries.now)) }
{
    match last_value(entries, "avro.codec") {
        Some(name) if name != b"null".as_slice() => refuse(alloc, name),
        _ => declared_by(alloc, last_value(entries, "avro.schema")),
    }
}

/// The type that a text declares.
fn declared_by(alloc: Global, schema: Option<&[u8]>) -> Result<AvroType, AvroFault>
    ensures { Gives types.view fault_of result (declared_by (option_map (λ b. b.now) schema.entry)) }
{
    let text = schema.ok_or(AvroFault::Bad(0))?;
    match parse(alloc, text) {
        Ok(kind) => Ok(kind),
        Err(AvroFault::Bad(_)) => Err(AvroFault::Bad(0)),
        Err(fault) => Err(fault),
    }
}

/// Refuses a codec that isn't read.
fn refuse(alloc: Global, name: &[u8]) -> Result<AvroType, AvroFault>
    ensures { Gives types.view fault_of result (Err (codec_fault name.now)) }
{
    match str::from_utf8(name) {
        Ok(name) => {
            let what = Txt::from_str(alloc, "codec")?;
            let text = Txt::from_str(alloc, name)?;
            Err(AvroFault::Unsupported { what, text })
        }
        Err(_) => Err(AvroFault::Bad(0)),
    }
}
