//! Avro's data: bytes, read as a datum of a type and written again, by itself and in a file.

ghost use Rattle.std.specs.Prelude.{map};
ghost use Rattle.std.specs.List.{AllByRecursion};
ghost use Rattle.pm_avro_schema.specs.Readable.{IsReadable};
ghost use Rattle.pm_avro_schema.specs.View as types;
ghost use Rattle.pm_avro_data.specs.Datum.{view};
ghost use Rattle.pm_avro_data.specs.HasType.{HasType};

use crate::avro::say_fault;
use crate::datum::{say_data, say_datum};
use pm_avro_data::{Datum, decode, encode};
use pm_avro_file::{FileReader, write_file};
use pm_avro_schema::{AvroFault, AvroType};
use pm_cases::Case;
use pm_values::Blob;
use std::alloc::Global;

/// A marker of zero bytes.
const MARKER: [u8; 16] = [0; 16];

/// What is answered of the datum that digits begin with, or the fault.
pub fn answer(case: &mut Case, codec: &str, kind: &AvroType, digits: &str)
    requires { IsReadable (types.view kind.now) }
{
    let bytes = case.digits(digits);
    match decode(case.alloc(), kind, &bytes) {
        Ok((datum, taken)) => answer_of(case, codec, kind, datum, taken),
        Err(fault) => say_fault(case, fault),
    }
}

/// The same of a datum that took so many bytes.
fn answer_of(case: &mut Case, codec: &str, kind: &AvroType, datum: Datum, taken: usize)
    requires readable { IsReadable (types.view kind.now) }
    requires of_type { HasType (types.view kind.now) (view datum) }
{
    if codec == "avro-datum" {
        say_again(case, kind, datum, taken);
    } else {
        say_file(case, kind, datum);
    }
}

/// Says a datum, how many bytes it took, and the digits that are written for it.
fn say_again(case: &mut Case, kind: &AvroType, datum: Datum, taken: usize)
    requires readable { IsReadable (types.view kind.now) }
    requires of_type { HasType (types.view kind.now) (view datum) }
{
    match encode(case.alloc(), kind, &datum) {
        Ok(written) => {
            say_datum(case, &datum);
            case.say_made(format!(in case.alloc(); "\t{taken}\t"));
            case.say_digits(&written);
        }
        Err(fault) => say_fault(case, fault),
    }
    drop(datum);
}

/// Says the digits of a file whose one block has the datum, what is read at the offset of its first block, and the
/// offset after it.
fn say_file(case: &mut Case, kind: &AvroType, datum: Datum)
    requires readable { IsReadable (types.view kind.now) }
    requires of_type { HasType (types.view kind.now) (view datum) }
{
    match written(case.alloc(), kind, datum) {
        Ok(file) => read_again(case, file),
        Err(fault) => say_fault(case, fault),
    }
}

/// The file whose one block has a datum.
fn written(alloc: Global, kind: &AvroType, datum: Datum) -> Result<Vec<u8>, AvroFault>
    requires readable { IsReadable (types.view kind.now) }
    requires of_type { HasType (types.view kind.now) (view datum) }
{
    if kind.takes_no_byte() {
        drop(datum);
        return Err(AvroFault::Bad(0));
    }
    let block = vec![in alloc; datum]?;
    write_file(alloc, kind, &[block], MARKER)
}

/// Says what is written of the first block of a file, the block, and the offset after it.
fn read_again(case: &mut Case, file: Vec<u8>) {
    match FileReader::open(case.alloc(), Blob::new(file)) {
        Ok(reader) => {
            say_first(case, &reader);
            drop(reader);
        }
        Err(fault) => say_fault(case, fault),
    }
}

/// The same of a file that was opened.
fn say_first(case: &mut Case, reader: &FileReader) {
    let kind = reader.kind();
    match reader.block_at(case.alloc(), reader.first()) {
        Ok(Some((block, next))) => say_block(case, kind, block, next),
        Ok(None) => case.say("no block"),
        Err(fault) => say_fault(case, fault),
    }
}

/// The same of the block.
fn say_block(case: &mut Case, kind: &AvroType, block: Vec<Datum>, next: usize)
    requires readable { IsReadable (types.view kind.now) }
    requires of_type { AllByRecursion (HasType (types.view kind.now)) (map view block.items) }
{
    let mut text = Case::new(case.alloc());
    say_data(&mut text, "(block", &block);
    match written_block(case.alloc(), kind, block) {
        Ok(file) => case.say_digits(&file),
        Err(fault) => say_fault(case, fault),
    }
    case.say("\t");
    case.say_made(text.into_answer());
    case.say_made(format!(in case.alloc(); "\t{next}"));
}

/// The file of a block.
fn written_block(alloc: Global, kind: &AvroType, block: Vec<Datum>) -> Result<Vec<u8>, AvroFault>
    requires readable { IsReadable (types.view kind.now) }
    requires of_type { AllByRecursion (HasType (types.view kind.now)) (map view block.items) }
{
    if kind.takes_no_byte() {
        drop(block);
        return Err(AvroFault::Bad(0));
    }
    write_file(alloc, kind, &[block], MARKER)
}
