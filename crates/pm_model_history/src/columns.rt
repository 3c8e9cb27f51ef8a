//! Where the columns of a schema stand.

ghost use Rattle.std.specs.Prelude.{◌≡◌, IfOk, map};
ghost use Rattle.pm_model_history.specs.ColumnValue.{index_of};
ghost use Rattle.pm_model_history.specs.Merged.{primary_of};

use pm_schema::TableSchema;
use pm_values::Txt;
use std::alloc::{AllocError, Global};

/// The index of the first column of that name, the number of the columns where there is none.
pub fn index_of(schema: &TableSchema, name: &str) -> usize
    ensures { result ≡ index_of schema.now name.now }
{
    let columns = schema.columns.as_slice();
    for (index, column) in columns.iter().enumerate() {
        if column.name.as_str() == name {
            return index;
        }
    }
    columns.len()
}

/// The indexes of the columns of these names, in their order.
pub fn indexes_of(
    alloc: Global,
    schema: &TableSchema,
    names: &[Txt],
) -> Result<Vec<usize>, AllocError>
    ensures { IfOk result (λ indexes. indexes.items ≡ map (index_of schema.now) names.now) }
{
    let mut indexes = Vec::with_capacity(alloc, names.len())?;
    for name in names {
        indexes.push(index_of(schema, name.as_str()))?;
    }
    Ok(indexes)
}

/// The indexes of the primary key's columns, in the order of the key.
pub fn primary_of(alloc: Global, schema: &TableSchema) -> Result<Vec<usize>, AllocError>
    ensures { IfOk result (λ primary. primary.items ≡ primary_of schema.now) }
{
    indexes_of(alloc, schema, schema.primary.as_slice())
}
