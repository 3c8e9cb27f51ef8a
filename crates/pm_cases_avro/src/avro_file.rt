//! Avro's files, read block by block.

use crate::avro::say_fault;
use crate::datum::say_data;
use pm_avro_data::Datum;
use pm_avro_file::FileReader;
use pm_cases::Case;
use pm_values::Blob;

/// How many blocks are read of a file.
const MOST_BLOCKS: usize = 64;

/// The offset of the first block, and the blocks.
pub fn avro_file_answer(case: &mut Case, digits: &str) {
    let bytes = case.digits(digits);
    match FileReader::open(case.alloc(), Blob::new(bytes)) {
        Ok(reader) => answer_of(case, reader),
        Err(fault) => say_fault(case, fault),
    }
}

/// The same of a file that was opened.
fn answer_of(case: &mut Case, reader: FileReader) {
    let mut reader = reader;
    case.say_made(format!(in case.alloc(); "{}", reader.first()));
    for _ in 0..MOST_BLOCKS {
        case.say("\t");
        if !say_next(case, &mut reader) {
            break;
        }
    }
    drop(reader);
}

/// Says the next block, `end`, or the fault and what is answered after it; and whether there was a block.
fn say_next(case: &mut Case, reader: &mut FileReader) -> bool {
    match reader.next_block(case.alloc()) {
        Ok(Some(block)) => say_block(case, block),
        Ok(None) => {
            case.say("end");
            false
        }
        Err(fault) => {
            say_fault(case, fault);
            case.say("\t");
            say_after_fault(case, reader)
        }
    }
}

/// Says a block.
fn say_block(case: &mut Case, block: Vec<Datum>) -> bool {
    say_data(case, "(block", &block);
    drop(block);
    true
}

/// Says what is answered after a fault.
fn say_after_fault(case: &mut Case, reader: &mut FileReader) -> bool {
    match reader.next_block(case.alloc()) {
        Ok(found) => {
            drop(found);
            case.say("no fault");
        }
        Err(fault) => say_fault(case, fault),
    }
    false
}

/// Says how many records each block of a file has, with blanks between them, and `end` or a fault.
pub fn say_counts(case: &mut Case, bytes: Vec<u8>) {
    match FileReader::open(case.alloc(), Blob::new(bytes)) {
        Ok(reader) => say_counts_of(case, reader),
        Err(fault) => say_fault(case, fault),
    }
}

/// The same of a file that was opened.
fn say_counts_of(case: &mut Case, reader: FileReader) {
    let mut reader = reader;
    for _ in 0..MOST_BLOCKS {
        if !say_next_count(case, &mut reader) {
            break;
        }
    }
    drop(reader);
}

/// Says how many records the next block has, or else `end` or the fault; and whether there was a block.
fn say_next_count(case: &mut Case, reader: &mut FileReader) -> bool {
    match reader.next_block(case.alloc()) {
        Ok(Some(block)) => {
            case.say_made(format!(in case.alloc(); "{} ", block.len()));
            drop(block);
            true
        }
        Ok(None) => {
            case.say("end");
            false
        }
        Err(fault) => {
            say_fault(case, fault);
            false
        }
    }
}
