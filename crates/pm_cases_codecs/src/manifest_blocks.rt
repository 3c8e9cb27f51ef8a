//! Manifest lists and manifests of so many records as are asked for, written.

use crate::file::{file_of, keys_of};
use crate::live::entry_of;
use pm_cases::{Case, say_sum};
use pm_cases_avro::say_counts;
use pm_manifest::{Entry, ManifestMeta};
use pm_manifest_writer::{write_list, write_manifest};
use pm_schema::TableSchema;
use pm_values::{FileMeta, Txt};
use std::alloc::{AllocError, Global};

/// A marker of zero bytes.
const MARKER: [u8; 16] = [0; 16];

/// How many records each block has of a written list, and its length and checksum; or the refusal. The first number is
/// how many manifests there are, and the others are those of each.
pub fn list_answer(case: &mut Case, schema: &TableSchema, numbers: &str) {
    let numbers = read_numbers(case, numbers);
    let [count, size, added, deleted, schema_id] = numbers.as_slice() else {
        return case.reject();
    };
    let mut metas = Vec::new(case.alloc());
    for index in 0..*count {
        match name_of(case.alloc(), index) {
            Ok(name) => {
                let meta = ManifestMeta {
                    name,
                    size: *size,
                    added: *added,
                    deleted: *deleted,
                    schema_id: *schema_id,
                };
                case.push(&mut metas, meta);
            }
            Err(_) => case.run_out(),
        }
    }
    match write_list(case.alloc(), schema, &metas, MARKER) {
        Ok(bytes) => say_file(case, bytes),
        Err(refusal) => case.refuse(refusal),
    }
    drop(metas);
}

/// Numbers with a blank between each two.
fn read_numbers(case: &mut Case, text: &str) -> Vec<u64> {
    let mut numbers = Vec::new(case.alloc());
    for word in text.split_whitespace() {
        let number = case.number(word);
        case.push(&mut numbers, number);
    }
    numbers
}

/// The name of a file: its index and `.avro`.
fn name_of(alloc: Global, index: u64) -> Result<Txt, AllocError> {
    let name = format!(in alloc; "{index}.avro")?;
    Txt::from_str(alloc, name.as_str())
}

/// The numbers of a file.
#[derive(Clone, Copy)]
struct Numbers {
    size: u64,
    rows: u64,
    min_seq: u64,
    max_seq: u64,
    schema_id: u64,
    level: u32,
}

/// How many records each block has of a written manifest, and its length and checksum; or the refusal. The first number
/// is how many entries there are, and the others are those of each file.
pub fn answer(case: &mut Case, schema: &TableSchema, numbers: &str) {
    let numbers = read_numbers(case, numbers);
    let [count, size, rows, min_seq, max_seq, schema_id, level] = numbers.as_slice() else {
        return case.reject();
    };
    let numbers = Numbers {
        size: *size,
        rows: *rows,
        min_seq: *min_seq,
        max_seq: *max_seq,
        schema_id: *schema_id,
        level: u32::try_from(*level).unwrap_or(0),
    };
    say_entries(case, schema, *count, numbers);
}

/// Says what is written of so many entries.
fn say_entries(case: &mut Case, schema: &TableSchema, count: u64, numbers: Numbers) {
    let mut entries = Vec::new(case.alloc());
    for index in 0..count {
        push_entry(case, &mut entries, index, numbers);
    }
    match write_manifest(case.alloc(), schema, &entries, MARKER) {
        Ok(bytes) => say_file(case, bytes),
        Err(refusal) => case.refuse(refusal),
    }
    drop(entries);
}

/// Adds an entry of a file with these numbers and with the name and the key of an index: an ADD where that is even.
fn push_entry(case: &mut Case, entries: &mut Vec<Entry>, index: u64, numbers: Numbers) {
    match file_at(case.alloc(), index) {
        Ok(file) => {
            let file = with_numbers(file, numbers);
            case.push(entries, entry_of(case.alloc(), index % 2 == 0, 0, file));
        }
        Err(_) => case.run_out(),
    }
}

/// A file with the name and the key of an index.
fn file_at(alloc: Global, index: u64) -> Result<FileMeta, AllocError> {
    let key = i64::try_from(index).unwrap_or(0);
    let name = name_of(alloc, index)?;
    match keys_of(alloc, key, key) {
        Ok((least, greatest)) => Ok(file_of(name, 0, least, greatest)),
        Err(error) => {
            drop(name);
            Err(error)
        }
    }
}

/// The file with these numbers.
fn with_numbers(file: FileMeta, numbers: Numbers) -> FileMeta {
    let mut file = file;
    file.size = numbers.size;
    file.rows = numbers.rows;
    file.min_seq = numbers.min_seq;
    file.max_seq = numbers.max_seq;
    file.schema_id = numbers.schema_id;
    file.level = numbers.level;
    file
}

/// Says how many records each block has of a file, and the file's length and checksum.
fn say_file(case: &mut Case, bytes: Vec<u8>) {
    let mut sum = Case::new(case.alloc());
    say_sum(&mut sum, &bytes);
    say_counts(case, bytes);
    case.say("\t");
    case.say_made(sum.into_answer());
}
