//! The folders of groups.

ghost use Rattle.std.specs.Prelude.{◌≡◌, IfOk, IfSome, option_map};
ghost use Rattle.std.specs.List.{AllZip, find};
ghost use Rattle.std.specs.Str.{bytes_eq};
ghost use Rattle.pm_schema.specs.Folder.{FitsPartition};
ghost use Rattle.pm_cases_groups.specs.Columns.{StandsFor};

use pm_base::Txt;
use pm_cases::Case;
use pm_partitions::exceeds_limit;
use pm_rows::read_row;
use pm_schema::{TableSchema, folder_of};
use pm_schema_file::read_draft;
use pm_values::{ColType, Column, Group};
use std::alloc::{AllocError, Global};

/// The folder of the group of a bucket and of values in a table, after `too long` where the text of one is that. A
/// draft that is refused is no case.
pub fn answer(case: &mut Case, arguments: &str) {
    let (draft, rest) = case.split(arguments);
    let Some(origin) = case.made(Txt::from_str(case.alloc(), "")) else {
        return;
    };
    match read_draft(case.alloc(), draft.as_bytes(), origin, 0) {
        Ok(schema) => {
            answer_of(case, &schema, rest);
            drop(schema);
        }
        Err(refusal) => {
            drop(refusal);
            case.reject();
        }
    }
}

/// The same of its schema.
fn answer_of(case: &mut Case, schema: &TableSchema, rest: &str) {
    let (bucket, line) = case.split(rest);
    let bucket = case.small(bucket);
    match partition_columns(case.alloc(), schema) {
        Ok(Some(columns)) => {
            say_group(case, schema, columns.as_slice(), bucket, line);
            drop(columns);
        }
        Ok(None) => case.reject(),
        Err(_) => case.run_out(),
    }
}

/// The partition columns, in the order in which their folders nest, with no null in any; nothing where the table lacks
/// one.
fn partition_columns(alloc: Global, schema: &TableSchema) -> Result<Option<Vec<Column>>, AllocError>
    ensures { IfOk result (λ found. IfSome found (λ columns.
        AllZip (StandsFor schema.now.columns) schema.now.partition columns.items)) }
{
    let mut columns = Vec::new(alloc);
    for name in schema.partition.as_slice() {
        let Some(kind) = kind_of(schema.columns.as_slice(), name) else {
            return Ok(None);
        };
        columns.push(Column {
            id: 0,
            name: name.copy(alloc)?,
            kind,
            nullable: false,
        })?;
    }
    Ok(Some(columns))
}

/// The type of the first column of a name.
fn kind_of(columns: &[Column], name: &Txt) -> Option<ColType>
    ensures { result ≡ option_map (λ c. c.kind) (find (λ c. bytes_eq c.name name.now) columns.now) }
{
    for column in columns {
        if column.name.as_str() == name.as_str() {
            return Some(column.kind);
        }
    }
    None
}

/// Says the folder of the group of a bucket and a line's values.
fn say_group(case: &mut Case, schema: &TableSchema, columns: &[Column], bucket: u32, line: &str)
    requires { AllZip (StandsFor schema.now.columns) schema.now.partition columns.now }
{
    match read_row(case.alloc(), columns, line.as_bytes()) {
        Ok((_, partition)) => say_folder(case, schema, Group { partition, bucket }),
        Err(_) => case.reject(),
    }
}

/// Says the folder of a group, and before it whether a text is too long.
fn say_folder(case: &mut Case, schema: &TableSchema, group: Group)
    requires { FitsPartition schema.now group }
{
    if exceeds_limit(group.partition.values()) {
        case.say("too long ");
    }
    let folder = folder_of(case.alloc(), schema, &group);
    drop(group);
    match folder {
        Ok(folder) => case.say(folder.as_str()),
        Err(_) => case.run_out(),
    }
}
