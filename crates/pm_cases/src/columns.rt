//! Columns and their types.

use pm_values::{ColType, Column, Txt};
use std::alloc::{AllocError, Global};

/// Columns with commas between them.
pub fn read_columns(alloc: Global, text: &str) -> Result<Option<Vec<Column>>, AllocError> {
    let mut columns = Vec::new(alloc);
    for part in text.split(',') {
        match read_column(alloc, part)? {
            Some(column) => columns.push(column)?,
            None => return Ok(None),
        }
    }
    Ok(Some(columns))
}

/// A column: its name, a colon, its type, and `!` where it isn't nullable.
fn read_column(alloc: Global, text: &str) -> Result<Option<Column>, AllocError> {
    let Some((name, kind)) = text.split_once(':') else {
        return Ok(None);
    };
    let (kind, nullable) = match kind.strip_suffix('!') {
        Some(kind) => (kind, false),
        None => (kind, true),
    };
    let Some(kind) = read_type(kind) else {
        return Ok(None);
    };
    Ok(Some(Column {
        id: 0,
        name: Txt::from_str(alloc, name)?,
        kind,
        nullable,
    }))
}

/// The type of that name.
pub fn read_type(name: &str) -> Option<ColType> {
    match name {
        "BOOLEAN" => Some(ColType::Boolean),
        "TINYINT" => Some(ColType::TinyInt),
        "SMALLINT" => Some(ColType::SmallInt),
        "INT" => Some(ColType::Int),
        "BIGINT" => Some(ColType::BigInt),
        "STRING" => Some(ColType::Text),
        "BYTES" => Some(ColType::Bytes),
        "DATE" => Some(ColType::Date),
        "TIMESTAMP(3)" => Some(ColType::Timestamp),
        _ => None,
    }
}
