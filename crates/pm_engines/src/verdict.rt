//! The verdict on a row, with the name of a column.

ghost use Rattle.std.specs.Prelude.{◌≡◌, IfOk};
ghost use Rattle.pm_engines.specs.Verdict.{whole, name_at, named};

use pm_base::Txt;
use pm_engine::Verdict as VerdictByIndex;
use pm_schema::TableSchema;
use std::alloc::{AllocError, Global};

/// What a table's engine makes of a row by its kind.
#[derive(Drop)]
pub enum Verdict {
    /// The row becomes part of the history.
    Take,
    /// The row has no effect.
    Ignore,
    /// The row is refused because of the column of the name, or as a whole, where this is `*`.
    Refuse(Txt),
}

/// The verdict with the name of the column, which is one of the schema.
pub(crate) fn named(
    alloc: Global,
    schema: &TableSchema,
    verdict: VerdictByIndex,
) -> Result<Verdict, AllocError>
    ensures { IfOk result (λ v. v ≡ named schema.now.columns verdict) }
{
    match verdict {
        VerdictByIndex::Take => Ok(Verdict::Take),
        VerdictByIndex::Ignore => Ok(Verdict::Ignore),
        VerdictByIndex::Refuse(index) => Ok(Verdict::Refuse(name_at(alloc, schema, index)?)),
        VerdictByIndex::RefuseAll => Ok(Verdict::Refuse(whole(alloc)?)),
    }
}

/// The name of the schema's column at the index.
fn name_at(alloc: Global, schema: &TableSchema, index: usize) -> Result<Txt, AllocError>
    ensures { IfOk result (λ name. name ≡ name_at schema.now.columns index) }
{
    match schema.columns.as_slice().get(index) {
        Some(column) => column.name.copy(alloc),
        None => whole(alloc),
    }
}

/// What stands for a column where a row is refused as a whole.
fn whole(alloc: Global) -> Result<Txt, AllocError>
    ensures { IfOk result (λ name. name ≡ whole) }
{
    Txt::from_str(alloc, "*")
}
