//! How a column is kept.

ghost use Rattle.std.specs.Prelude.{◌≡◌};
ghost use Rattle.pm_partial.specs.Update.{update_on};

use pm_columns::{group_of, is_key};
use pm_model_history::index_of;
use pm_schema::TableSchema;
use pm_values::{ColType, Column};

/// How a column is kept.
#[derive(Clone, Copy)]
pub(crate) enum Update {
    /// It is one of the key.
    Key,
    /// It has its latest value that isn't null. Its type.
    Latest(ColType),
    /// It has what the leading row of its group has. The index of the leading column.
    InGroup(usize),
}

/// Which of two stored rows a column is taken from.
#[derive(Clone, Copy)]
pub(crate) enum Side {
    Older,
    Newer,
    /// It has its latest value that isn't null. Its type.
    Latest(ColType),
}

/// How the schema keeps the column.
pub(crate) fn update_on(schema: &TableSchema, column: &Column) -> Update
    ensures { result ≡ update_on schema.now column.now }
{
    if is_key(schema, column) {
        return Update::Key;
    }
    match group_of(schema, column) {
        Some(group) => Update::InGroup(index_of(schema, group.0.as_str())),
        None => Update::Latest(column.kind),
    }
}
