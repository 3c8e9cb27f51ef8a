//! The phases of a reader of a schema, and what they mean.

ghost use Rattle.std.specs.Prelude.{◌≡◌, ◌⊎◌, [], codes, IfOk, IfErr};
ghost use Rattle.pm_model_folder.specs.Ledger as ledgers;
ghost use Rattle.pm_model_folder.specs.Paths.{schema_path};
ghost use Rattle.pm_schema.specs.Again.{IsDeclared};
ghost use Rattle.pm_store.specs.declared.answer.Answer.TheVariants as answers;
ghost use Rattle.pm_values.specs.declared.refusal.Refusal.TheVariants as refusals;
ghost use Rattle.pm_read_schema.specs.Beside.{IsTold};
ghost use Rattle.pm_read_schema.specs.Meaning.{Knows};
ghost use Rattle.pm_read_schema.specs.Reader.{calls_left, next_call, with_origin, Goes, HasDeclared, IsReady, Shown};
ghost use Rattle.pm_read_schema.specs.Trace.{Did, Shows};
ghost use Rattle.pm_read_schema.specs.declared.phase.Phase.TheVariants as phases;

use crate::names::{lists_snapshot, newest_schema};
use crate::phase::Phase;
use pm_base::{Blob, Txt};
use pm_machine::ReaderPhase;
use pm_paths::schema_path;
use pm_schema::{TableSchema, declared_law, schema_law};
use pm_schema_file::read_schema;
use pm_store::{Answer, LentCall};
use pm_values::Refusal;
use std::alloc::{AllocError, Global};

impl pm_machine::Phase for Phase {
    ghost call_of = { next_call };

    ghost goes = { Goes };

    ghost shown = { Shown };

    ghost holds = { HasDeclared };

    ghost end = { phases.Over };

    fn call(&self, alloc: Global) -> Result<Option<LentCall<'_>>, AllocError> {
        match self {
            Phase::Schemas => Ok(Some(LentCall::List {
                folder: Txt::from_str(alloc, "schema")?,
            })),
            Phase::Schema { id } => Ok(Some(LentCall::Read {
                path: schema_path(alloc, *id)?,
            })),
            Phase::Snapshots { .. } => Ok(Some(LentCall::List {
                folder: Txt::from_str(alloc, "snapshot")?,
            })),
            Phase::Ready { .. } | Phase::Over => Ok(None),
        }
    }

    fn over() -> Phase {
        Phase::Over
    }

    fn next(self, alloc: Global, answer: Answer) -> Result<Phase, Refusal> {
        match (self, answer) {
            (Phase::Schemas, Answer::Listed(names)) => after_schemas(names),
            (Phase::Schema { id }, Answer::Found(found)) => after_schema(alloc, id, found),
            (Phase::Snapshots { schema }, Answer::Listed(names)) => {
                after_snapshots(alloc, schema, names)
            }
            _ => unreachable!(),
        }
    }
}

impl ReaderPhase for Phase {
    ghost History = { ledgers.Past };

    ghost Folder = { ledgers.Stands };

    ghost knows = { Knows };

    ghost tells = { IsTold };

    ghost Asked = { Unit {0} };

    ghost did = { λ asked. Did };

    ghost shows = { λ asked. Shows };

    ghost calls_left = { calls_left };

    ghost ready = { IsReady };
}

/// The phase once the schemas were listed.
fn after_schemas(names: Vec<Txt>) -> Result<Phase, Refusal>
    ensures goes { IfOk result (Goes phases.Schemas (answers.Listed names)) }
    ensures declared { IfOk result HasDeclared }
    ensures refuses { IfErr result (Shown phases.Schemas (answers.Listed names)) }
{
    match newest_schema(names.as_slice()) {
        Some(id) => Ok(Phase::Schema { id }),
        None => Err(Refusal::NoTable),
    }
}

/// The phase once this was found at the path of the schema with an id.
fn after_schema(alloc: Global, id: u64, found: Option<Blob>) -> Result<Phase, Refusal>
    ensures goes { IfOk result (Goes (phases.Schema id) (answers.Found found)) }
    ensures declared { IfOk result HasDeclared }
    ensures refuses { IfErr result (Shown (phases.Schema id) (answers.Found found)) }
{
    schema_law();
    declared_law();
    let path = match schema_path(alloc, id) {
        Ok(path) => path,
        Err(_) => return Err(Refusal::Memory),
    };
    let Some(bytes) = found else {
        return Err(Refusal::Damaged { path, place: 0 });
    };
    match read_schema(alloc, path.as_str(), bytes.as_bytes()) {
        Ok(schema) => Ok(with_origin(schema)),
        Err(refusal) => Err(refusal),
    }
}

/// The phase once this schema was read.
fn with_origin(schema: TableSchema) -> Phase
    requires { IsDeclared schema }
    ensures phase { result ≡ with_origin schema.origin schema }
    ensures declared { HasDeclared result }
{
    match schema.origin {
        Some(_) => Phase::Ready { schema },
        None => Phase::Snapshots { schema },
    }
}

/// The phase once the snapshots of a table were listed whose schema names no origin.
fn after_snapshots(alloc: Global, schema: TableSchema, names: Vec<Txt>) -> Result<Phase, Refusal>
    requires { IsDeclared schema }
    ensures goes { IfOk result (Goes (phases.Snapshots schema) (answers.Listed names)) }
    ensures declared { IfOk result HasDeclared }
    ensures refuses { IfErr result (Shown (phases.Snapshots schema) (answers.Listed names)) }
{
    if lists_snapshot(names.as_slice()) {
        Ok(Phase::Ready { schema })
    } else {
        drop(schema);
        Err(no_origin(alloc))
    }
}

/// The refusal of a schema that names no origin, where no snapshot stands.
fn no_origin(alloc: Global) -> Refusal
    ensures { (result ≡ refusals.Memory) ⊎ (result ≡ refusals.Unsupported (codes "origin") []) }
{
    let Ok(what) = Txt::from_str(alloc, "origin") else {
        return Refusal::Memory;
    };
    match Txt::from_str(alloc, "") {
        Ok(text) => Refusal::Unsupported { what, text },
        Err(_) => Refusal::Memory,
    }
}
