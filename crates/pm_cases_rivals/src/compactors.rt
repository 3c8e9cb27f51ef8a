//! Two compactors and a writer on one real folder, a call of the store in turn; the writer shares its store with the
//! first of them.

ghost use Rattle.std.specs.Prelude.{◌<◌, IfOk};
ghost use Rattle.pm_compactor.specs.Compactor.{calls_left};

use crate::writers::{SESSION, TURNS, begin, make_table, say_table, say_writer, take_turn};
use pm_base::Txt;
use pm_cases::Case;
use pm_compactor::{CompactStep, Compactor, compact_step, new_compactor};
use pm_engines::declared_law;
use pm_read_schema::read_table_schema;
use pm_store::FileStore;
use pm_values::{Names, Refusal};
use std::alloc::Global;

/// A compactor that has a call of the store left.
#[derive(Drop)]
struct Open {
    compactor: Compactor,
    ghost left: { 0 < calls_left compactor },
}

/// A compactor: it goes on, or it committed the snapshot with this id, or had nothing to do, or is refused.
#[derive(Drop)]
enum Compacting {
    Open(Open),
    Committed(u64),
    Nothing,
    Refused(Refusal),
}

/// What two compactors in full and a writer of a row answer, who take turns after each call of the store, on a table of
/// so many commits; then its rows, its snapshots, and the names of its data files.
pub fn answer<F: FileStore>(case: &mut Case, store: &mut F, other: &mut F, arguments: &str) {
    let (commits, row) = case.split(arguments);
    let commits = case.small(commits);
    make_table(case, store, commits);
    take_turns(case, store, other, row);
    case.say(" | ");
    say_table(case, store);
}

/// Says the answers of the three.
fn take_turns<F: FileStore>(case: &mut Case, store: &mut F, other: &mut F, row: &str) {
    let alloc = case.alloc();
    let mut one = begin_compactor(alloc, store, 0);
    let mut two = begin_compactor(alloc, other, 1);
    let mut writer = begin(alloc, store, 2, row);
    for _ in 0..TURNS {
        one = take_compactor_turn(alloc, one, store);
        two = take_compactor_turn(alloc, two, other);
        writer = take_turn(alloc, writer, store);
    }
    say_compactor(case, one);
    case.say(" | ");
    say_compactor(case, two);
    case.say(" | ");
    say_writer(case, writer);
}

/// A compactor, which has made no call but those that read the schema; or why there is none.
fn begin_compactor<F: FileStore>(alloc: Global, store: &mut F, actor: u32) -> Compacting {
    match compactor_of(alloc, store, actor) {
        Ok(compactor) => Compacting::Open(Open { compactor }),
        Err(refusal) => Compacting::Refused(refusal),
    }
}

/// The compactor of an actor.
fn compactor_of<F: FileStore>(
    alloc: Global,
    store: &mut F,
    actor: u32,
) -> Result<Compactor, Refusal>
    ensures { IfOk result (λ c. 0 < calls_left c) }
{
    let user = Txt::from_str(alloc, "c")?;
    declared_law();
    match read_table_schema(alloc, store) {
        Ok(schema) => {
            let mut session = [0; 16];
            session[15] = SESSION;
            let names = Names::new(session, actor, 0);
            Ok(new_compactor(schema, true, user, names, 1000))
        }
        Err(refusal) => {
            drop(user);
            Err(refusal)
        }
    }
}

/// A compactor after its next call, where one is left.
fn take_compactor_turn<F: FileStore>(
    alloc: Global,
    compacting: Compacting,
    store: &mut F,
) -> Compacting {
    match compacting {
        Compacting::Open(Open { compactor }) => make_call(alloc, compactor, store),
        done => done,
    }
}

/// A compactor after its next call.
fn make_call<F: FileStore>(alloc: Global, compactor: Compactor, store: &mut F) -> Compacting
    requires { 0 < calls_left compactor }
{
    let mut compactor = compactor;
    match compact_step(alloc, &mut compactor, store) {
        Ok(CompactStep::More) => Compacting::Open(Open { compactor }),
        Ok(CompactStep::Committed(id)) => {
            drop(compactor);
            Compacting::Committed(id)
        }
        Ok(CompactStep::Nothing) => {
            drop(compactor);
            Compacting::Nothing
        }
        Err(refusal) => {
            drop(compactor);
            Compacting::Refused(refusal)
        }
    }
}

/// Says the answer of a compactor.
fn say_compactor(case: &mut Case, compacting: Compacting) {
    match compacting {
        Compacting::Open(open) => {
            drop(open);
            case.say("goes on");
        }
        Compacting::Committed(id) => case.say_made(format!(in case.alloc(); "snapshot {id}")),
        Compacting::Nothing => case.say("nothing to compact"),
        Compacting::Refused(refusal) => case.refuse(refusal),
    }
}
