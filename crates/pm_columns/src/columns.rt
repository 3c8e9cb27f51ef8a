//! What a schema says of its columns.

ghost use Rattle.std.specs.Prelude.{◌≡◌};
ghost use Rattle.std.specs.Option.{option_copied};
ghost use Rattle.pm_options.specs.Entries.{entry_at};
ghost use Rattle.pm_schema.specs.Rules.{is_among};
ghost use Rattle.pm_model_history.specs.Taken.{is_key, function_of, skips_retractions};
ghost use Rattle.pm_model_history.specs.ColumnValue.{delimiter_of, group_of, is_in_group};

use pm_schema::{Function, Listed, TableSchema};
use pm_values::{Column, Txt};

/// What stands for a name first.
fn entry_at<'a, T>(entries: &'a [(Txt, T)], name: &str) -> Option<&'a T>
    ensures { option_copied result ≡ entry_at name.now entries.now }
{
    for (other, value) in entries {
        if other.as_str() == name {
            return Some(value);
        }
    }
    None
}

/// Whether the name is one of the names.
fn is_among(names: &[Txt], name: &str) -> bool
    ensures { result ≡ is_among names.now name.now }
{
    for other in names {
        if other.as_str() == name {
            return true;
        }
    }
    false
}

/// Whether the column is one of the primary key.
pub fn is_key(schema: &TableSchema, column: &Column) -> bool
    ensures { result ≡ is_key schema.now column.now }
{
    is_among(schema.primary.as_slice(), column.name.as_str())
}

/// The function of a column.
pub fn function_of(schema: &TableSchema, column: &Column) -> Function
    ensures { result ≡ function_of schema.now column.now }
{
    match entry_at(schema.options.functions.as_slice(), column.name.as_str()) {
        Some(function) => *function,
        None => Function::LastNonNullValue,
    }
}

/// Whether the column skips the rows that retract.
pub fn skips_retractions(schema: &TableSchema, column: &Column) -> bool
    ensures { result ≡ skips_retractions schema.now column.now }
{
    match entry_at(
        schema.options.ignore_retract.as_slice(),
        column.name.as_str(),
    ) {
        Some(skips) => *skips,
        None => false,
    }
}

/// The delimiter of a column.
pub fn delimiter_of<'a>(schema: &'a TableSchema, column: &Column) -> &'a str
    ensures { result.now ≡ delimiter_of schema.now column.now }
{
    match entry_at(schema.options.delimiters.as_slice(), column.name.as_str()) {
        Some(delimiter) => delimiter.as_str(),
        None => ",",
    }
}

/// The sequence group of a column.
pub fn group_of<'a>(schema: &'a TableSchema, column: &Column) -> Option<&'a (Txt, Listed<Txt>)>
    ensures { option_copied result ≡ group_of schema.now column.now }
{
    for group in schema.options.groups.as_slice() {
        if is_in_group(column, group) {
            return Some(group);
        }
    }
    None
}

/// Whether the column leads the group or is in its list.
fn is_in_group(column: &Column, group: &(Txt, Listed<Txt>)) -> bool
    ensures { result ≡ is_in_group column.now group.now }
{
    group.0.as_str() == column.name.as_str() || is_among(group.1.as_slice(), column.name.as_str())
}
