//! A file that is written a block at a time, each of its data's bytes.

ghost use Rattle.std.specs.Prelude.{◌≡◌, ◌++◌, ◌∷◌, [], ◌<◌, ◌^◌, List, length, IfErr, IfOk, OnOk};
ghost use Rattle.pm_avro_schema.specs.Avro.{Avro};
ghost use Rattle.pm_avro_schema.specs.Readable.{IsReadable};
ghost use Rattle.pm_avro_schema.specs.View as types;
ghost use Rattle.pm_avro_data.specs.Datum.{Data};
ghost use Rattle.pm_avro_file.specs.Begun.{AreEncoded, IsBegun};

use crate::writing::write_header;
use pm_avro_data::{add_bytes, add_long};
use pm_avro_schema::{AvroFault, AvroType};
use std::alloc::{AllocError, Global};

/// The bytes of a file without blocks, to which `add_block` adds them. The only fault is `Memory`.
pub fn begin_file(alloc: Global, kind: &AvroType, marker: &[u8; 16]) -> Result<Vec<u8>, AvroFault>
    requires readable { IsReadable (types.view kind.now) }
    ensures begun { IfOk result (λ v. IsBegun (types.view kind.now) marker.now [] v.items) }
    ensures memory { IfErr result (λ e. e ≡ AvroFault.Memory) }
{
    let out = write_header(alloc, kind, marker)?;
    Ok(out)
}

/// Adds a block to a file that was begun: of how many data it is, and their bytes. The only fault is out of memory;
/// nothing is said of `out` after it.
pub fn add_block(
    out: &mut Vec<u8>,
    count: usize,
    content: &[u8],
    marker: &[u8; 16],
) -> Result<(), AllocError>
    requires count { count < 2 ^ 63 }
    ensures { OnOk result ((t : Avro) (blocks : List (List Data)) (ds : List Data) →
        IsBegun t marker.now blocks out.old.items → AreEncoded t ds content.now → count ≡ length ds
        → IsBegun t marker.now (blocks ++ ds ∷ []) out.new.items) }
{
    add_long(out, count as i64)?;
    add_bytes(out, content)?;
    out.extend_from_slice(marker)?;
    Ok(())
}
