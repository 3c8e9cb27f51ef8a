//! How what a try makes is put into the folder.
//!
//! What isn't handed on is dropped by name, as in `pm_read_table`.

ghost use Rattle.std.specs.Prelude.{◌≡◌, ◌<◌, length, IfOk, IfErr, IsSomeAnd};
ghost use Rattle.pm_values.specs.declared.refusal.Refusal.TheVariants.{Memory};
ghost use Rattle.pm_store.specs.Answers.{MayAnswer};
ghost use Rattle.pm_put.specs.Putter as putters;
ghost use Rattle.pm_schema.specs.Again.{IsDeclared};
ghost use Rattle.pm_commit.specs.Committer.{after_path, publishing_of, After, AfterPutter, IsPutting, Loses};
ghost use Rattle.pm_commit.specs.Own.{tries, IsTried};
ghost use Rattle.pm_commit.specs.declared.phase.Phase.TheVariants as phases;

use crate::after::begin;
use crate::lost::TRIES;
use crate::own::Own;
use crate::paths::after_path;
use crate::phase::Phase;
use pm_base::Blob;
use pm_machine::Machine;
use pm_made::Made;
use pm_paths::snapshot_path;
use pm_put::{Publishing, PutStep, Putter, new_putter};
use pm_schema::TableSchema;
use pm_store::Answer;
use pm_values::Refusal;
use std::alloc::{AllocError, Global};
use std::collections::VecDeque;

/// The phase in which what a try made is to be put.
pub(crate) fn put(
    alloc: Global,
    own: Own,
    schema: TableSchema,
    made: Made,
) -> Result<Phase, Refusal>
    ensures put { IfOk result (λ phase. phase ≡ phases.Put own schema made.id
        (putters.create_next (publishing_of schema made.id made.text) made.files.items)) }
    ensures memory { IfErr result (λ refusal. refusal ≡ Memory) }
{
    let Made { id, files, text } = made;
    match publishing_of(alloc, &schema, id, text) {
        Ok(publishing) => Ok(Phase::Put {
            own,
            schema,
            id,
            putter: new_putter(VecDeque::from(files), publishing),
        }),
        Err(_) => {
            drop(own);
            drop(schema);
            drop(files);
            Err(Refusal::Memory)
        }
    }
}

/// The publish of a snapshot after the one before it.
fn publishing_of(
    alloc: Global,
    schema: &TableSchema,
    id: u64,
    text: Blob,
) -> Result<Publishing, AllocError>
    ensures { IfOk result (λ x. x ≡ publishing_of schema.now id text) }
{
    let after = after_path(alloc, schema, id)?;
    let path = snapshot_path(alloc, id)?;
    Ok(Publishing {
        after,
        path,
        bytes: text,
    })
}

/// What follows an answer to a call of a try's putter. It takes no memory.
pub(crate) fn after_put(
    alloc: Global,
    own: Own,
    schema: TableSchema,
    id: u64,
    putter: Putter,
    answer: Answer,
) -> Result<Phase, Refusal>
    requires may { IsSomeAnd (putters.next_call putter) (λ call. MayAnswer call answer) }
    requires putting { IsPutting schema own putter }
    ensures { After (phases.Put own schema id putter) answer result }
{
    let mut putter = putter;
    match putter.take(alloc, answer) {
        Ok(()) => after_putter(own, schema, id, putter),
        Err(refusal) => {
            drop(own);
            drop(schema);
            drop(putter);
            Err(refusal)
        }
    }
}

/// What follows with this putter: the try goes on until its publish was answered.
fn after_putter(own: Own, schema: TableSchema, id: u64, putter: Putter) -> Result<Phase, Refusal>
    requires { IsTried schema own }
    ensures { AfterPutter own schema id putter result }
{
    match putter.phase().reached() {
        PutStep::More => Ok(Phase::Put {
            own,
            schema,
            id,
            putter,
        }),
        PutStep::Published => {
            drop(putter);
            drop(schema);
            Ok(Phase::Committed {
                author: own.into_author(),
                id,
            })
        }
        PutStep::Lost => {
            drop(putter);
            after_lost(own, schema, id)
        }
    }
}

/// What follows once this id was lost to others.
fn after_lost(own: Own, schema: TableSchema, id: u64) -> Result<Phase, Refusal>
    requires declared { IsDeclared schema }
    requires left { length own.lost < tries }
    ensures { Loses own schema id result }
{
    let mut own = own;
    own.lost.push(id);
    if own.lost.len() < TRIES {
        return Ok(begin(own, schema));
    }
    let ids = own.lost.ids();
    drop(own);
    drop(schema);
    Err(Refusal::Contended { ids })
}
