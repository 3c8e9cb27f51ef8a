//! Writing a file.

ghost use Rattle.std.specs.Prelude.{◌≡◌, ◌++◌, ◌<◌, ◌≤◌, ◌^◌, [], pos, false};
ghost use Rattle.std.specs.Prelude.{List, ℕ, map, length, Ok, IfOk, IfErr, OnOk};
ghost use Rattle.std.specs.List.{AllByRecursion};
ghost use Rattle.pm_avro_schema.specs.Avro as avro;
ghost use Rattle.pm_avro_schema.specs.Avro.{takes_no_byte};
ghost use Rattle.pm_avro_schema.specs.View as types;
ghost use Rattle.pm_avro_schema.specs.Readable.{IsReadable};
ghost use Rattle.pm_avro_schema.specs.Reading.{parsed_type};
ghost use Rattle.pm_avro_schema.specs.Writing.{avro_text};
ghost use Rattle.pm_avro_data.specs.Datum.{view, bytes, entry_view, items_of};
ghost use Rattle.pm_avro_data.specs.Writing.{integer, encoding, items_encoding};
ghost use Rattle.pm_avro_data.specs.HasType.{HasType};
ghost use Rattle.pm_avro_data.specs.IsDatum.{IsDatum, AreItems};
ghost use Rattle.pm_avro_data.specs.Number.{IsLong};
ghost use Rattle.pm_avro_file.specs.Container.{metadata, IsBlock, IsHeader, IsContainer};
ghost use Rattle.pm_avro_file.specs.Views.{blocks_view};
ghost use Rattle.pm_avro_file.specs.Writing.{written_pairs, header_bytes, block_bytes, file_bytes};

use crate::header::{MAGIC, metadata_kind};
use pm_avro_data::{Datum, encode, encode_to};
use pm_avro_schema::{AvroFault, AvroType, print};
use pm_base::Txt;
use std::alloc::{AllocError, Global};

/// The bytes of a file with these blocks, in order. The only fault is `Memory`. A block without data is written like
/// any other, but the table's crates never write one: at such a block other readers stop, or read stale data.
pub fn write_file(
    alloc: Global,
    kind: &AvroType,
    blocks: &[Vec<Datum>],
    marker: [u8; 16],
) -> Result<Vec<u8>, AvroFault>
    requires readable { IsReadable (types.view kind.now) }
    requires some { takes_no_byte (types.view kind.now) ≡ false }
    requires of_type { AllByRecursion (AllByRecursion (HasType (types.view kind.now))) (blocks_view blocks.now) }
    ensures bytes { IfOk result (λ v.
        v.items ≡ file_bytes (types.view kind.now) (blocks_view blocks.now) marker) }
    // The bytes are the file with these blocks.
    ensures file { IfOk result (λ v.
        IsContainer (types.view kind.now) (blocks_view blocks.now) marker v.items) }
    ensures memory { IfErr result (λ e. e ≡ AvroFault.Memory) }
{
    let mut out = write_header(alloc, kind, &marker)?;
    for block in blocks {
        push_block(alloc, &mut out, kind, block, &marker)?;
    }
    Ok(out)
}

/// The header of a file with data of this type.
pub(crate) fn write_header(
    alloc: Global,
    kind: &AvroType,
    marker: &[u8; 16],
) -> Result<Vec<u8>, AvroFault>
    requires readable { IsReadable (types.view kind.now) }
    ensures bytes { IfOk result (λ v. v.items ≡ header_bytes (types.view kind.now) marker.now) }
    ensures header { IfOk result (λ v. (rest : List ℕ) →
        IsHeader (types.view kind.now) marker.now (v.items ++ rest) rest) }
    ensures memory { IfErr result (λ e. e ≡ AvroFault.Memory) }
{
    let pairs = write_metadata(alloc, kind)?;
    let mut out = Vec::from_slice(alloc, &MAGIC)?;
    out.extend_from_slice(&pairs)?;
    out.extend_from_slice(marker)?;
    Ok(out)
}

/// The bytes of such a header's metadata.
fn write_metadata(alloc: Global, kind: &AvroType) -> Result<Vec<u8>, AvroFault>
    requires readable { IsReadable (types.view kind.now) }
    ensures bytes { IfOk result (λ v.
        v.items ≡ encoding (metadata (written_pairs (avro_text (types.view kind.now))))) }
    ensures read { IfOk result (λ v. (rest : List ℕ) →
        IsDatum (avro.map_of avro.bytes) (metadata (written_pairs (avro_text (types.view kind.now))))
        (v.items ++ rest) rest) }
    ensures schema { IfOk result (λ v.
        parsed_type (avro_text (types.view kind.now)) ≡ Ok (types.view kind.now)) }
    ensures memory { IfErr result (λ e. e ≡ AvroFault.Memory) }
{
    let schema = print(alloc, kind)?;
    let datum = metadata_with(alloc, schema)?;
    let kind = metadata_kind(alloc)?;
    let bytes = encode(alloc, &kind, &datum)?;
    Ok(bytes)
}

/// The metadata with the text of a type.
fn metadata_with(alloc: Global, schema: Vec<u8>) -> Result<Datum, AllocError>
    ensures { IfOk result (λ d. view d ≡ metadata (written_pairs schema.items)) }
{
    let codec = Vec::from_slice(alloc, b"null")?;
    let mut entries = Vec::with_capacity(alloc, 2)?;
    entries.push(metadata_entry(alloc, "avro.codec", codec)?)?;
    entries.push(metadata_entry(alloc, "avro.schema", schema)?)?;
    Ok(Datum::Map(entries))
}

/// An entry of the metadata.
fn metadata_entry(alloc: Global, key: &str, value: Vec<u8>) -> Result<(Txt, Datum), AllocError>
    ensures { IfOk result (λ e. entry_view e ≡ (key.now, bytes value.items)) }
{
    Ok((Txt::from_str(alloc, key)?, Datum::Bytes(value)))
}

/// Writes a block.
fn push_block(
    alloc: Global,
    out: &mut Vec<u8>,
    kind: &AvroType,
    block: &Vec<Datum>,
    marker: &[u8; 16],
) -> Result<(), AvroFault>
    requires readable { IsReadable (types.view kind.now) }
    requires some { takes_no_byte (types.view kind.now) ≡ false }
    requires of_type { AllByRecursion (HasType (types.view kind.now)) (map view block.now.items) }
    ensures bytes { OnOk result
        (out.new.items ≡ out.old.items ++ block_bytes marker.now (map view block.now.items)) }
    ensures block { OnOk result ((rest : List ℕ) →
        IsBlock (types.view kind.now) marker.now (map view block.now.items)
        (block_bytes marker.now (map view block.now.items) ++ rest) rest) }
    ensures memory { IfErr result (λ e. e ≡ AvroFault.Memory) }
{
    let content = write_data(alloc, kind, block)?;
    push_size(out, block.len())?;
    push_size(out, content.len())?;
    out.extend_from_slice(&content)?;
    out.extend_from_slice(marker)?;
    Ok(())
}

/// The data of a block, one after another.
fn write_data(alloc: Global, kind: &AvroType, block: &Vec<Datum>) -> Result<Vec<u8>, AvroFault>
    requires readable { IsReadable (types.view kind.now) }
    requires some { takes_no_byte (types.view kind.now) ≡ false }
    requires of_type { AllByRecursion (HasType (types.view kind.now)) (map view block.now.items) }
    ensures bytes { IfOk result (λ v. v.items ≡ items_encoding (items_of (map view block.now.items))) }
    ensures data { IfOk result (λ v.
        AreItems (IsDatum (types.view kind.now)) (map view block.now.items) v.items []) }
    ensures within { IfOk result (λ v. length block.now.items ≤ length v.items) }
    ensures memory { IfErr result (λ e. e ≡ AvroFault.Memory) }
{
    let mut content = Vec::new(alloc);
    for datum in block {
        encode_to(&mut content, kind, datum)?;
    }
    Ok(content)
}

/// Writes a size.
fn push_size(out: &mut Vec<u8>, size: usize) -> Result<(), AvroFault>
    requires { size < 2 ^ 63 }
    ensures bytes { OnOk result (out.new.items ≡ out.old.items ++ integer (pos size)) }
    ensures long { OnOk result ((rest : List ℕ) → IsLong (pos size) (integer (pos size) ++ rest) rest) }
    ensures memory { IfErr result (λ e. e ≡ AvroFault.Memory) }
{
    encode_to(out, &AvroType::Long, &Datum::Long(size as i64))
}
