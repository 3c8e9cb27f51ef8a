//! Files that are written of records' data.

ghost use Rattle.std.specs.Prelude.{◌≡◌, ◌≤◌, List, [], ◌∷◌, ◌++◌, false, map, IfOk, IfErr, OnOk};
ghost use Rattle.std.specs.List.{AllByRecursion};
ghost use Rattle.pm_avro_schema.specs.Avro.{takes_no_byte};
ghost use Rattle.pm_avro_schema.specs.View as types;
ghost use Rattle.pm_avro_schema.specs.Readable.{IsReadable};
ghost use Rattle.pm_avro_schema.specs.declared.fault.AvroFault.TheVariants.{Memory};
ghost use Rattle.pm_avro_data.specs.Datum.{Data, view};
ghost use Rattle.pm_avro_data.specs.HasType.{HasType};
ghost use Rattle.pm_avro_file.specs.Views.{blocks_view};
ghost use Rattle.pm_record.specs.File.{joined, AreBlocks, IsSplit, IsFileOf};

use pm_avro_data::Datum;
use pm_avro_file::write_file;
use pm_avro_schema::{AvroFault, AvroType};
use std::alloc::{AllocError, Global};
use std::mem;

/// The bytes of a file with these data of the type, so many in each block but the last. No block is empty. The only
/// fault is `Memory`.
pub fn write_records(
    alloc: Global,
    kind: &AvroType,
    most: usize,
    data: Vec<Datum>,
    marker: [u8; 16],
) -> Result<Vec<u8>, AvroFault>
    requires some_in_each { 1 ≤ most }
    requires readable { IsReadable (types.view kind.now) }
    requires some { takes_no_byte (types.view kind.now) ≡ false }
    requires of_type { AllByRecursion (HasType (types.view kind.now)) (map view «data».items) }
    ensures file { IfOk result (λ v. IsFileOf (types.view kind.now) most (map view «data».items) marker v.items) }
    ensures memory { IfErr result (λ e. e ≡ Memory) }
{
    let blocks = split_blocks(alloc, most, data)?;
    write_file(alloc, kind, &blocks, marker)
}

/// The data in blocks.
fn split_blocks(alloc: Global, most: usize, data: Vec<Datum>) -> Result<Vec<Vec<Datum>>, AllocError>
    requires { 1 ≤ most }
    ensures same { IfOk result (λ v. joined (blocks_view v.items) ≡ map view «data».items) }
    ensures full { IfOk result (λ v. AreBlocks most (blocks_view v.items)) }
{
    let mut blocks = Vec::new(alloc);
    let mut block = Vec::new(alloc);
    for datum in data {
        add_datum(alloc, most, &mut blocks, &mut block, datum)?;
    }
    if block.is_empty() {
        return Ok(blocks);
    }
    blocks.push(block)?;
    Ok(blocks)
}

/// Adds a datum to the last block, or to one more where that is full.
fn add_datum(
    alloc: Global,
    most: usize,
    blocks: &mut Vec<Vec<Datum>>,
    last: &mut Vec<Datum>,
    datum: Datum,
) -> Result<(), AllocError>
    requires { 1 ≤ most }
    ensures { OnOk result ((ds : List Data) →
        IsSplit most (blocks_view blocks.old.items) (map view last.old.items) ds
        → IsSplit most (blocks_view blocks.new.items) (map view last.new.items) (ds ++ view datum ∷ [])) }
{
    if last.len() == most {
        blocks.push(mem::replace(last, Vec::new(alloc)))?;
    }
    last.push(datum)?;
    Ok(())
}
