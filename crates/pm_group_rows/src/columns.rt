//! The columns by which a table's rows lie in groups.

ghost use Rattle.std.specs.Prelude.{◌≡◌, IfOk, map};
ghost use Rattle.pm_model_following.specs.Groups.{bucket_key_of, kind_at, partition_of};
ghost use Rattle.pm_schema.specs.Rules.{is_among};

use pm_model_history::{index_of, indexes_of};
use pm_schema::TableSchema;
use pm_values::{ColType, Txt};
use std::alloc::{AllocError, Global};

/// The indexes of the partition columns, in the order in which their folders nest.
pub fn partition_of(alloc: Global, schema: &TableSchema) -> Result<Vec<usize>, AllocError>
    ensures { IfOk result (λ columns. columns.items ≡ partition_of schema.now) }
{
    indexes_of(alloc, schema, schema.partition.as_slice())
}

/// The indexes of the primary key's other columns, in the order of the key.
pub(crate) fn bucket_key_of(alloc: Global, schema: &TableSchema) -> Result<Vec<usize>, AllocError>
    ensures { IfOk result (λ columns. columns.items ≡ bucket_key_of schema.now) }
{
    let mut columns = Vec::new(alloc);
    for name in schema.primary.as_slice() {
        if !is_among(schema.partition.as_slice(), name.as_str()) {
            columns.push(index_of(schema, name.as_str()))?;
        }
    }
    Ok(columns)
}

/// Whether a name is one of several.
fn is_among(names: &[Txt], name: &str) -> bool
    ensures { result ≡ is_among names.now name.now }
{
    for other in names {
        if other.as_str() == name {
            return true;
        }
    }
    false
}

/// The types of the columns at indexes.
pub(crate) fn kinds_at(
    alloc: Global,
    schema: &TableSchema,
    columns: &[usize],
) -> Result<Vec<ColType>, AllocError>
    ensures { IfOk result (λ kinds. kinds.items ≡ map (kind_at schema.now) columns.now) }
{
    let mut kinds = Vec::with_capacity(alloc, columns.len())?;
    for column in columns {
        kinds.push(kind_at(schema, *column))?;
    }
    Ok(kinds)
}

/// The type of the column at an index; where there is none, that of texts.
fn kind_at(schema: &TableSchema, index: usize) -> ColType
    ensures { result ≡ kind_at schema.now index }
{
    match schema.columns.as_slice().get(index) {
        Some(column) => column.kind,
        None => ColType::Text,
    }
}
