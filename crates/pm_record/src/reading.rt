//! Files that are read as records.

ghost use Rattle.std.specs.Prelude.{◌≤◌, length, map};
ghost use Rattle.std.specs.List.{AllByRecursion};
ghost use Rattle.pm_base.specs.Outcome.{Gives};
ghost use Rattle.pm_values.specs.declared.refusal.Refusal.TheVariants.{Damaged};
ghost use Rattle.pm_avro_schema.specs.View as types;
ghost use Rattle.pm_avro_data.specs.Datum.{view};
ghost use Rattle.pm_avro_data.specs.HasType.{HasType};
ghost use Rattle.pm_record.specs.File.{IsMemoryOr, refusal_of, misfit_refusal, misfit_of, all_read};
ghost use Rattle.pm_record.specs.File.{OpensFile, ReadsBlock, ReadsAll, seen};

use crate::misfit::Misfit;
use pm_avro_data::Datum;
use pm_avro_file::{FileReader, KnownType};
use pm_avro_schema::{AvroFault, AvroType};
use pm_base::{Blob, Txt};
use pm_values::Refusal;
use std::alloc::Global;

/// What reads the records of files: it has found the fields of a type, and takes them from each datum of that type.
pub trait ReadRecord {
    ghost use Rattle.std.specs.Prelude.{Result};
    ghost use Rattle.pm_base.specs.Outcome.{Gives};
    ghost use Rattle.pm_avro_schema.specs.Avro.{Avro};
    ghost use Rattle.pm_avro_schema.specs.View as types;
    ghost use Rattle.pm_avro_data.specs.Datum.{Data, view};
    ghost use Rattle.pm_avro_data.specs.HasType.{HasType};
    ghost use Rattle.pm_record.specs.File.{misfit_of};
    ghost use Rattle.pm_record.specs.declared.misfit.Misfit.{Misfit};

    /// What a datum is read as.
    type Record: Drop;

    /// The type whose fields it has found.
    ghost is_of: { Self → Avro → Type 0 };

    /// What a datum of a type is read as, or why it is no record.
    ghost reads: { Self → Avro → Data → Result Self.Record Misfit };

    /// What a datum of the type is read as.
    fn read(&self, alloc: Global, kind: &AvroType, datum: Datum) -> Result<Self::Record, Misfit>
        requires of_kind { is_of self.now (types.view kind.now) }
        requires of_type { HasType (types.view kind.now) (view datum) }
        ensures { Gives (λ x. x) misfit_of result (reads self.now (types.view kind.now) (view datum)) };
}

/// The refusal of the file at a path that has this fault; or out of memory.
fn refusal(alloc: Global, path: &str, fault: AvroFault) -> Refusal
    ensures { IsMemoryOr (refusal_of path.now fault) result }
{
    match fault {
        AvroFault::Memory => Refusal::Memory,
        AvroFault::Unsupported { what, text } => Refusal::Unsupported { what, text },
        AvroFault::Bad(offset) => damaged(alloc, path, offset),
    }
}

/// The refusal of the file at a path that is damaged at an offset in bytes; or out of memory.
pub fn damaged(alloc: Global, path: &str, offset: usize) -> Refusal
    ensures { IsMemoryOr (Damaged path.now offset) result }
{
    match Txt::from_str(alloc, path) {
        Ok(path) => Refusal::Damaged {
            path,
            place: offset as u64,
        },
        Err(_) => Refusal::Memory,
    }
}

/// A reader of the file at a path. Refusals are `Memory`, `Unsupported` and `Damaged` at 0.
pub fn open_file(alloc: Global, path: &str, bytes: Blob) -> Result<FileReader, Refusal>
    ensures { OpensFile path.now bytes result }
{
    open_file_by(alloc, path, bytes, None)
}

/// The same. A type that is known from another file isn't read again where the text of this one's is the same.
pub fn open_file_by(
    alloc: Global,
    path: &str,
    bytes: Blob,
    known: Option<&KnownType>,
) -> Result<FileReader, Refusal>
    ensures { OpensFile path.now bytes result }
{
    match FileReader::open_by(alloc, bytes, known) {
        Ok(file) => Ok(file),
        Err(fault) => Err(refusal(alloc, path, fault)),
    }
}

/// The records of the block at an offset of the file at a path, and the offset after it; none at the end. Refusals are
/// `Memory`, `Unsupported`, and `Damaged` at this offset: at a block that isn't one, or at its first misfit.
pub fn read_block<R: ReadRecord>(
    alloc: Global,
    path: &str,
    file: &FileReader,
    offset: usize,
    records: &R,
) -> Result<Option<(Vec<R::Record>, usize)>, Refusal>
    requires within { offset ≤ length file.now.bytes }
    requires of_kind { R.is_of records.now file.now.kind }
    ensures { ReadsBlock (λ v. v.items) (R.reads records.now) file.now path.now offset result }
{
    let found = match file.block_at(alloc, offset) {
        Ok(found) => found,
        Err(fault) => return Err(refusal(alloc, path, fault)),
    };
    let Some((data, next)) = found else {
        return Ok(None);
    };
    match read_data(alloc, file.kind(), data, records) {
        Ok(read) => Ok(Some((read, next))),
        Err(misfit) => Err(misfit_refusal(alloc, path, offset, misfit)),
    }
}

/// The records that data are.
fn read_data<R: ReadRecord>(
    alloc: Global,
    kind: &AvroType,
    data: Vec<Datum>,
    records: &R,
) -> Result<Vec<R::Record>, Misfit>
    requires of_kind { R.is_of records.now (types.view kind.now) }
    requires of_type { AllByRecursion (HasType (types.view kind.now)) (map view «data».items) }
    ensures { Gives (λ v. v.items) misfit_of result
        (all_read (R.reads records.now (types.view kind.now)) (map view «data».items)) }
{
    let mut read = Vec::with_capacity(alloc, data.len())?;
    for datum in data {
        read.push(records.read(alloc, kind, datum)?)?;
    }
    Ok(read)
}

/// The refusal of the file at a path, where a datum of the block at an offset has this misfit.
fn misfit_refusal(alloc: Global, path: &str, offset: usize, misfit: Misfit) -> Refusal
    ensures { IsMemoryOr (misfit_refusal path.now offset misfit) result }
{
    match misfit {
        Misfit::Memory => Refusal::Memory,
        Misfit::Bad => damaged(alloc, path, offset),
        Misfit::Unsupported { what, text } => Refusal::Unsupported { what, text },
    }
}

/// The records of all blocks of the file at a path, in order.
pub fn read_records<R: ReadRecord>(
    alloc: Global,
    path: &str,
    file: &FileReader,
    records: &R,
) -> Result<Vec<R::Record>, Refusal>
    requires of_kind { R.is_of records.now file.now.kind }
    ensures { ReadsAll (R.reads records.now) file.now path.now (seen (λ v. v.items) result) }
{
    let mut all = Vec::new(alloc);
    let mut offset = file.first();
    while let Some((mut more, next)) = read_block(alloc, path, file, offset, records)? {
        all.append(&mut more)?;
        offset = next;
    }
    Ok(all)
}
