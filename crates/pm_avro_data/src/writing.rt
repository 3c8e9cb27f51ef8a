//! Writing data.

ghost use Rattle.std.specs.Prelude.{◌≡◌, ◌++◌, ◌<◌, ◌^◌, ℕ, List, map, length, IsUtf8, OnOk, IfOk, IfErr};
ghost use Rattle.pm_avro_schema.specs.View as types;
ghost use Rattle.pm_avro_schema.specs.Readable.{IsReadable};
ghost use Rattle.pm_avro_data.specs.HasType.{HasType};
ghost use Rattle.pm_avro_data.specs.IsDatum.{IsDatum};
ghost use Rattle.pm_avro_data.specs.Datum.{view, leaf_data, array_of, map_of, items_of};
ghost use Rattle.pm_avro_data.specs.Datum.{entry_view, entries_of};
ghost use Rattle.pm_avro_data.specs.Number.{zigzag};
ghost use Rattle.pm_avro_data.specs.Writing.{groups, integer, sized, encoding, items_encoding};
ghost use Rattle.pm_avro_data.specs.Writing.{entries_encoding, Fits, ItemsFit, EntriesFit};

use crate::datum::{Datum, Leaf};
use pm_avro_schema::{AvroFault, AvroType};
use pm_base::Txt;
use std::alloc::{AllocError, Global};

/// Writes a number in groups.
fn push_groups(out: &mut Vec<u8>, number: u64) -> Result<(), AllocError>
    ensures { OnOk result (out.new.items ≡ out.old.items ++ groups 9 number) }
{
    let mut left = number;
    while left >= 128 {
        out.push((left % 128 + 128) as u8)?;
        left /= 128;
    }
    out.push(left as u8)?;
    Ok(())
}

/// The number that stands for an integer.
fn to_zigzag(value: i64) -> u64
    ensures { result ≡ zigzag value }
{
    if value < 0 {
        2 * ((-1 - value) as u64) + 1
    } else {
        2 * (value as u64)
    }
}

/// Writes a long, or an int.
#[tactic(auto, unfolding(crate::specs::Writing::integer))]
pub(crate) fn push_integer(out: &mut Vec<u8>, value: i64) -> Result<(), AllocError>
    ensures { OnOk result (out.new.items ≡ out.old.items ++ integer value) }
{
    push_groups(out, to_zigzag(value))
}

/// Writes bytes after their length.
pub(crate) fn push_sized(out: &mut Vec<u8>, content: &[u8]) -> Result<(), AllocError>
    ensures written { OnOk result (out.new.items ≡ out.old.items ++ sized content.now) }
    ensures fits { OnOk result (length content.now < 2 ^ 63) }
{
    push_integer(out, content.len() as i64)?;
    out.extend_from_slice(content)?;
    Ok(())
}

/// Writes a text after its length.
fn push_text(out: &mut Vec<u8>, text: &Txt) -> Result<(), AllocError>
    ensures written { OnOk result (out.new.items ≡ out.old.items ++ sized text.now) }
    ensures utf8 { OnOk result (IsUtf8 text.now) }
    ensures fits { OnOk result (length text.now < 2 ^ 63) }
{
    push_sized(out, text.as_bytes())
}

/// Writes a datum that holds no other.
fn push_leaf(out: &mut Vec<u8>, leaf: &Leaf) -> Result<(), AllocError>
    ensures written { OnOk result (out.new.items ≡ out.old.items ++ encoding (leaf_data leaf.now)) }
    ensures fits { OnOk result (Fits (leaf_data leaf.now)) }
{
    match leaf {
        Leaf::Null => Ok(()),
        Leaf::Bool(flag) => Ok(out.push(u8::from(*flag))?),
        Leaf::Int(number) => push_integer(out, i64::from(*number)),
        Leaf::Long(number) => push_integer(out, *number),
        Leaf::Bytes(content) => push_sized(out, content),
        Leaf::Text(text) => push_text(out, text),
    }
}

/// Writes a datum.
#[cycle(encode)]
pub(crate) fn push_datum(out: &mut Vec<u8>, datum: &Datum) -> Result<(), AllocError>
    ensures written { OnOk result (out.new.items ≡ out.old.items ++ encoding (view datum.now)) }
    ensures fits { OnOk result (Fits (view datum.now)) }
{
    match datum {
        Datum::Null => Ok(()),
        Datum::Bool(flag) => Ok(out.push(u8::from(*flag))?),
        Datum::Int(number) => push_integer(out, i64::from(*number)),
        Datum::Long(number) => push_integer(out, *number),
        Datum::Bytes(content) => push_sized(out, content),
        Datum::Text(text) => push_text(out, text),
        Datum::Record(values) => push_items(out, values),
        Datum::Branch(index, leaf) => {
            push_integer(out, i64::from(*index))?;
            push_leaf(out, leaf)
        }
        Datum::Union(index, datum) => {
            push_integer(out, i64::from(*index))?;
            push_datum(out, datum)
        }
        Datum::Array(items) => push_array(out, items),
        Datum::Map(entries) => push_map(out, entries),
    }
}

/// Writes an array: its items as one block, or none, and a count of 0.
#[cycle(encode)]
fn push_array(out: &mut Vec<u8>, items: &Vec<Datum>) -> Result<(), AllocError>
    ensures written { OnOk result
        (out.new.items ≡ out.old.items ++ encoding (array_of (items_of (map view items.now.items)))) }
    ensures fits { OnOk result (Fits (array_of (items_of (map view items.now.items)))) }
{
    if items.is_empty() {
        out.push(0)?;
        return Ok(());
    }
    push_integer(out, items.len() as i64)?;
    push_items(out, items)?;
    out.push(0)?;
    Ok(())
}

/// Writes a map: its entries as one block, or none, and a count of 0.
#[cycle(encode)]
fn push_map(out: &mut Vec<u8>, entries: &Vec<(Txt, Datum)>) -> Result<(), AllocError>
    ensures written { OnOk result
        (out.new.items ≡ out.old.items ++ encoding (map_of (entries_of (map entry_view entries.now.items)))) }
    ensures fits { OnOk result (Fits (map_of (entries_of (map entry_view entries.now.items)))) }
{
    if entries.is_empty() {
        out.push(0)?;
        return Ok(());
    }
    push_integer(out, entries.len() as i64)?;
    push_entries(out, entries)?;
    out.push(0)?;
    Ok(())
}

/// Writes data, one after another.
#[cycle(encode)]
fn push_items(out: &mut Vec<u8>, items: &Vec<Datum>) -> Result<(), AllocError>
    ensures written { OnOk result
        (out.new.items ≡ out.old.items ++ items_encoding (items_of (map view items.now.items))) }
    ensures fits { OnOk result (ItemsFit (items_of (map view items.now.items))) }
{
    for item in items {
        push_datum(out, item)?;
    }
    Ok(())
}

/// Writes a map's keys and values, one after another.
#[cycle(encode)]
fn push_entries(out: &mut Vec<u8>, entries: &Vec<(Txt, Datum)>) -> Result<(), AllocError>
    ensures written { OnOk result
        (out.new.items ≡ out.old.items ++ entries_encoding (entries_of (map entry_view entries.now.items))) }
    ensures fits { OnOk result (EntriesFit (entries_of (map entry_view entries.now.items))) }
{
    for entry in entries {
        push_text(out, &entry.0)?;
        push_datum(out, &entry.1)?;
    }
    Ok(())
}

/// The bytes of the datum, of its spellings one that is shortest. The only fault is `Memory`.
pub fn encode(alloc: Global, kind: &AvroType, datum: &Datum) -> Result<Vec<u8>, AvroFault>
    requires readable { IsReadable (types.view kind.now) }
    requires of_type { HasType (types.view kind.now) (view datum.now) }
    ensures bytes { IfOk result (λ v. v.items ≡ encoding (view datum.now)) }
    // The bytes are that datum of the type, whatever follows them.
    ensures datum { IfOk result (λ v. (rest : List ℕ) →
        IsDatum (types.view kind.now) (view datum.now) (v.items ++ rest) rest) }
    ensures memory { IfErr result (λ e. e ≡ AvroFault.Memory) }
{
    let mut out = Vec::new(alloc);
    encode_to(&mut out, kind, datum)?;
    Ok(out)
}

/// Adds the bytes of the datum, of its spellings one that is shortest. The only fault is `Memory`; nothing is said of
/// `out` after it.
pub fn encode_to(out: &mut Vec<u8>, kind: &AvroType, datum: &Datum) -> Result<(), AvroFault>
    requires readable { IsReadable (types.view kind.now) }
    requires of_type { HasType (types.view kind.now) (view datum.now) }
    ensures bytes { OnOk result (out.new.items ≡ out.old.items ++ encoding (view datum.now)) }
    // What is added is that datum of the type, whatever follows it.
    ensures datum { OnOk result ((rest : List ℕ) →
        IsDatum (types.view kind.now) (view datum.now) (encoding (view datum.now) ++ rest) rest) }
    ensures memory { IfErr result (λ e. e ≡ AvroFault.Memory) }
{
    push_datum(out, datum)?;
    Ok(())
}
