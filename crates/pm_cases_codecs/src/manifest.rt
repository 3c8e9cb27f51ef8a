//! Manifest lists and manifests, read and written again.

use crate::record_text::{say_entry, say_meta};
use pm_cases::{Case, say_sum};
use pm_manifest::{Entry, ManifestMeta};
use pm_manifest_reader::{read_list, read_manifest};
use pm_manifest_writer::{write_list, write_manifest};
use pm_schema::TableSchema;
use pm_values::Blob;

/// The manifests of a list, and what is written for them; or the refusal.
pub fn list_answer(case: &mut Case, schema: &TableSchema, file: &str) {
    let (path, digits) = case.split(file);
    let bytes = case.digits(digits);
    if let Some(blob) = case.made(Blob::from_slice(case.alloc(), &bytes)) {
        match read_list(case.alloc(), path, blob) {
            Ok(metas) => say_metas(case, schema, metas, &bytes),
            Err(refusal) => case.refuse(refusal),
        }
    }
}

/// The entries of a manifest, and what is written for them; or the refusal.
pub fn answer(case: &mut Case, schema: &TableSchema, file: &str) {
    let (path, digits) = case.split(file);
    let bytes = case.digits(digits);
    if let Some(blob) = case.made(Blob::from_slice(case.alloc(), &bytes)) {
        match read_manifest(case.alloc(), path, schema, blob) {
            Ok(entries) => say_entries(case, schema, entries, &bytes),
            Err(refusal) => case.refuse(refusal),
        }
    }
}

/// Says the manifests that were read of bytes, and what is written for them.
fn say_metas(case: &mut Case, schema: &TableSchema, metas: Vec<ManifestMeta>, bytes: &[u8]) {
    for meta in &metas {
        say_meta(case, meta);
        case.say(" ");
    }
    match write_list(case.alloc(), schema, &metas, marker_of(bytes)) {
        Ok(again) => say_written(case, &again, bytes),
        Err(refusal) => case.refuse(refusal),
    }
    drop(metas);
}

/// Says the entries that were read of bytes, and what is written for them.
fn say_entries(case: &mut Case, schema: &TableSchema, entries: Vec<Entry>, bytes: &[u8]) {
    for entry in &entries {
        say_entry(case, entry);
        case.say(" ");
    }
    match write_manifest(case.alloc(), schema, &entries, marker_of(bytes)) {
        Ok(again) => say_written(case, &again, bytes),
        Err(refusal) => case.refuse(refusal),
    }
    drop(entries);
}

/// The last 16 bytes, which are a file's marker; zeros where there are fewer.
fn marker_of(bytes: &[u8]) -> [u8; 16] {
    match bytes.last_chunk::<16>() {
        Some(marker) => *marker,
        None => [0; 16],
    }
}

/// Says `same` where the bytes are these, else their length and their checksum.
fn say_written(case: &mut Case, again: &[u8], bytes: &[u8]) {
    if again == bytes {
        case.say("same");
    } else {
        say_sum(case, again);
    }
}
