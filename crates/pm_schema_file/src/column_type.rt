//! The texts of column types.

ghost use Rattle.std.specs.Prelude.{◌≡◌};
ghost use Rattle.pm_options.specs.Faults.{Answers};
ghost use Rattle.pm_schema.specs.ColumnType.{type_in, type_text, column_in, columns_in, fields_views};

use crate::rules::is_among;
use pm_settings::{entry_of, unsupported};
use pm_values::{ColType, Column, Refusal, Txt};
use std::alloc::Global;

/// The types by their texts, and whether null may stand in a column of the type.
static TYPES: [(&str, (ColType, bool)); 18] = [
    ("BOOLEAN", (ColType::Boolean, true)),
    ("BOOLEAN NOT NULL", (ColType::Boolean, false)),
    ("TINYINT", (ColType::TinyInt, true)),
    ("TINYINT NOT NULL", (ColType::TinyInt, false)),
    ("SMALLINT", (ColType::SmallInt, true)),
    ("SMALLINT NOT NULL", (ColType::SmallInt, false)),
    ("INT", (ColType::Int, true)),
    ("INT NOT NULL", (ColType::Int, false)),
    ("BIGINT", (ColType::BigInt, true)),
    ("BIGINT NOT NULL", (ColType::BigInt, false)),
    ("STRING", (ColType::Text, true)),
    ("STRING NOT NULL", (ColType::Text, false)),
    ("BYTES", (ColType::Bytes, true)),
    ("BYTES NOT NULL", (ColType::Bytes, false)),
    ("DATE", (ColType::Date, true)),
    ("DATE NOT NULL", (ColType::Date, false)),
    ("TIMESTAMP(3)", (ColType::Timestamp, true)),
    ("TIMESTAMP(3) NOT NULL", (ColType::Timestamp, false)),
];

/// The type that has the text.
fn read_type(text: &str) -> Option<(ColType, bool)>
    ensures { result ≡ type_in text.now }
{
    entry_of(&TYPES, text)
}

/// The text of a type.
pub(crate) fn print_type(kind: ColType, nullable: bool) -> &'static str
    ensures { result.now ≡ type_text (kind, nullable) }
{
    match (kind, nullable) {
        (ColType::Boolean, true) => "BOOLEAN",
        (ColType::Boolean, false) => "BOOLEAN NOT NULL",
        (ColType::TinyInt, true) => "TINYINT",
        (ColType::TinyInt, false) => "TINYINT NOT NULL",
        (ColType::SmallInt, true) => "SMALLINT",
        (ColType::SmallInt, false) => "SMALLINT NOT NULL",
        (ColType::Int, true) => "INT",
        (ColType::Int, false) => "INT NOT NULL",
        (ColType::BigInt, true) => "BIGINT",
        (ColType::BigInt, false) => "BIGINT NOT NULL",
        (ColType::Text, true) => "STRING",
        (ColType::Text, false) => "STRING NOT NULL",
        (ColType::Bytes, true) => "BYTES",
        (ColType::Bytes, false) => "BYTES NOT NULL",
        (ColType::Date, true) => "DATE",
        (ColType::Date, false) => "DATE NOT NULL",
        (ColType::Timestamp, true) => "TIMESTAMP(3)",
        (ColType::Timestamp, false) => "TIMESTAMP(3) NOT NULL",
    }
}

/// The columns that fields state: an id, a name and a type's text each. Of the required names each column is
/// NOT NULL.
pub(crate) fn read_columns(
    alloc: Global,
    required: &[Txt],
    fields: &[(u32, &str, &str)],
) -> Result<Vec<Column>, Refusal>
    ensures { Answers (λ v. v.items) result (columns_in required.now (fields_views fields.now)) }
{
    let mut columns = Vec::with_capacity(alloc, fields.len())?;
    for (id, name, text) in fields {
        columns.push(read_column(alloc, required, *id, *name, *text)?)?;
    }
    Ok(columns)
}

/// The column that a field states.
fn read_column(
    alloc: Global,
    required: &[Txt],
    id: u32,
    name: &str,
    text: &str,
) -> Result<Column, Refusal>
    ensures { Answers (λ c. c) result (column_in required.now (id, name.now, text.now)) }
{
    match read_type(text) {
        Some((kind, nullable)) => Ok(Column {
            id,
            name: Txt::from_str(alloc, name)?,
            kind,
            nullable: nullable && !is_among(required, name),
        }),
        None => unsupported(alloc, "type", text),
    }
}
