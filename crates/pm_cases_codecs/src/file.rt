//! What manifests know of files.

use pm_values::{FileMeta, Key, Txt, Value};
use std::alloc::{AllocError, Global};

/// A file of a size between two keys, without rows.
pub fn file_of(name: Txt, size: u64, least: Key, greatest: Key) -> FileMeta {
    FileMeta {
        name,
        size,
        rows: 0,
        min_key: least,
        max_key: greatest,
        min_seq: 0,
        max_seq: 0,
        schema_id: 0,
        level: 0,
        created: None,
    }
}

/// The key of a number.
pub fn key_of(alloc: Global, number: i64) -> Result<Key, AllocError> {
    let mut values = Vec::new(alloc);
    values.push(Value::Int(number))?;
    Ok(Key::new(values))
}

/// The keys of two numbers.
pub fn keys_of(alloc: Global, least: i64, greatest: i64) -> Result<(Key, Key), AllocError> {
    let least = key_of(alloc, least)?;
    match key_of(alloc, greatest) {
        Ok(greatest) => Ok((least, greatest)),
        Err(error) => {
            drop(least);
            Err(error)
        }
    }
}
