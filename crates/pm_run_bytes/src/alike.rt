//! Whether two forms are the same.

ghost use Rattle.std.specs.Prelude.{◌≡◌, IsTrue};

use pm_run::Field;
use pm_run_form::TableForm;
use pm_schema::EngineKind;
use pm_values::ColType;

/// Whether two forms are known to be the same.
pub(crate) fn are_alike(one: &TableForm, other: &TableForm) -> bool
    ensures { IsTrue result → one.now ≡ other.now }
{
    are_same_columns(&one.columns, &other.columns)
        && are_same_columns(&one.keys, &other.keys)
        && one.places.as_slice() == other.places.as_slice()
        && one.primary.as_slice() == other.primary.as_slice()
        && is_same_engine(one.engine, other.engine)
}

/// Whether fields of columns are the same.
fn are_same_columns(fields: &[Field], others: &[Field]) -> bool
    ensures { IsTrue result → fields.now ≡ others.now }
{
    if fields.len() != others.len() {
        return false;
    }
    for (index, field) in fields.iter().enumerate() {
        if !is_same_column(field, &others[index]) {
            return false;
        }
    }
    true
}

/// Whether two fields of columns are the same.
fn is_same_column(field: &Field, other: &Field) -> bool
    ensures { IsTrue result → field.now ≡ other.now }
{
    field.name.as_str() == other.name.as_str()
        && is_same_type(field.kind, other.kind)
        && field.nullable == other.nullable
}

/// Whether two types of columns are the same.
fn is_same_type(one: ColType, other: ColType) -> bool
    ensures { IsTrue result → one ≡ other }
{
    match one {
        ColType::Boolean => matches!(other, ColType::Boolean),
        ColType::TinyInt => matches!(other, ColType::TinyInt),
        ColType::SmallInt => matches!(other, ColType::SmallInt),
        ColType::Int => matches!(other, ColType::Int),
        ColType::BigInt => matches!(other, ColType::BigInt),
        ColType::Text => matches!(other, ColType::Text),
        ColType::Bytes => matches!(other, ColType::Bytes),
        ColType::Date => matches!(other, ColType::Date),
        ColType::Timestamp => matches!(other, ColType::Timestamp),
    }
}

/// Whether two engines are the same.
fn is_same_engine(one: EngineKind, other: EngineKind) -> bool
    ensures { IsTrue result → one ≡ other }
{
    match one {
        EngineKind::Deduplicate => matches!(other, EngineKind::Deduplicate),
        EngineKind::PartialUpdate => matches!(other, EngineKind::PartialUpdate),
        EngineKind::Aggregation => matches!(other, EngineKind::Aggregation),
        EngineKind::FirstRow => matches!(other, EngineKind::FirstRow),
    }
}
