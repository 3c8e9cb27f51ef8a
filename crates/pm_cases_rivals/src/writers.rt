//! Two writers on one real folder, each through a store of its own, a call of the store in turn.

ghost use Rattle.std.specs.Prelude.{◌<◌, ◌≤◌, ◌≢◌, [], List, length, IfOk};
ghost use Rattle.pm_model_history.specs.Merge.{HistoryRow};
ghost use Rattle.pm_schema.specs.Again.{IsDeclared};
ghost use Rattle.pm_write.specs.Batch.{IsBatchOf};
ghost use Rattle.pm_commit.specs.Committer.{calls_left};
ghost use Rattle.pm_commit.specs.Own.{group_limit};

use crate::command::run_command;
use pm_base::Txt;
use pm_cases::Case;
use pm_commit::{CommitStep, Committer, commit_step, new_committer};
use pm_engines::{TableEngine, declared_law};
use pm_input::{InputLines, LIMITS, read_lines, refusal_of};
use pm_io::MemSource;
use pm_read_schema::read_table_schema;
use pm_schema::TableSchema;
use pm_store::FileStore;
use pm_values::{Names, Refusal};
use pm_write::{Batch, batch_law};
use std::alloc::Global;

/// The draft of the table.
const DRAFT: &str =
    r#"{"fields":[{"name":"id","type":"BIGINT NOT NULL"},{"name":"v","type":"STRING"}],"primaryKeys":["id"]}"#;

/// The session of all who take turns; their actors are numbered from 0.
pub(crate) const SESSION: u8 = 6;

/// More turns than commits take.
pub(crate) const TURNS: u32 = 100;

/// A committer that has a call of the store left.
#[derive(Drop)]
pub(crate) struct Open {
    committer: Committer,
    ghost left: { 0 < calls_left committer },
}

/// A writer: it goes on, or it committed the snapshot with this id, or is refused.
#[derive(Drop)]
pub(crate) enum Writer {
    Open(Open),
    Committed(u64),
    Already,
    Refused(Refusal),
}

/// What two writers of a row each answer, who take turns after each call of the store, on a table of so many commits;
/// then its rows, its snapshots, and the names of its data files.
pub fn answer<F: FileStore>(case: &mut Case, store: &mut F, other: &mut F, arguments: &str) {
    let (commits, rows) = case.split(arguments);
    let (first, second) = case.split(rows);
    let commits = case.small(commits);
    make_table(case, store, commits);
    take_turns(case, store, other, first, second);
    case.say(" | ");
    say_table(case, store);
}

/// Makes the table, and commits a row of key 1 so many times.
pub(crate) fn make_table<F: FileStore>(case: &mut Case, store: &mut F, commits: u32) {
    let mut unsaid = Case::new(case.alloc());
    run_command(&mut unsaid, store, 1, "create", DRAFT.as_bytes());
    let mut session = 1_u8;
    for _ in 0..commits {
        session = session.wrapping_add(1);
        if let Some(row) = case.made(format!(in case.alloc(); "[\"+I\",1,\"{session}\"]")) {
            run_command(&mut unsaid, store, session, "write", row.as_bytes());
        }
    }
    drop(unsaid);
}

/// Says the rows that a store's table shows, its snapshots, and the names of its data files.
pub(crate) fn say_table<F: FileStore>(case: &mut Case, store: &mut F) {
    run_command(case, store, 1, "scan", &[]);
    case.say(" | ");
    run_command(case, store, 1, "snapshots", &[]);
    case.say(" |");
    match store.list(case.alloc(), "bucket-0") {
        Ok(names) => say_names(case, &names),
        Err(_) => case.reject(),
    }
}

/// Says names, each after a blank.
fn say_names(case: &mut Case, names: &[Txt]) {
    for name in names {
        case.say(" ");
        case.say(name.as_str());
    }
}

/// Says the answers of the two.
fn take_turns<F: FileStore>(
    case: &mut Case,
    store: &mut F,
    other: &mut F,
    first: &str,
    second: &str,
) {
    let alloc = case.alloc();
    let mut one = begin(alloc, store, 0, first);
    let mut two = begin(alloc, other, 1, second);
    for _ in 0..TURNS {
        one = take_turn(alloc, one, store);
        two = take_turn(alloc, two, other);
    }
    say_writer(case, one);
    case.say(" | ");
    say_writer(case, two);
}

/// A writer of a row, which has made no call but those that read the schema; or why there is none.
pub(crate) fn begin<F: FileStore>(alloc: Global, store: &mut F, actor: u32, row: &str) -> Writer {
    match committer_of(alloc, store, actor, row) {
        Ok(committer) => Writer::Open(Open { committer }),
        Err(refusal) => Writer::Refused(refusal),
    }
}

/// The committer of a row.
fn committer_of<F: FileStore>(
    alloc: Global,
    store: &mut F,
    actor: u32,
    row: &str,
) -> Result<Committer, Refusal>
    ensures { IfOk result (λ c. 0 < calls_left c) }
{
    let user = Txt::from_str(alloc, "w")?;
    let schema = match read_table_schema(alloc, store) {
        Ok(schema) => schema,
        Err(refusal) => {
            drop(user);
            return Err(refusal);
        }
    };
    match batch_of(alloc, &schema, row) {
        Ok(batch) => {
            let mut session = [0; 16];
            session[15] = SESSION;
            let names = Names::new(session, actor, 0);
            Ok(new_committer(schema, batch, user, 0, false, names, 1000))
        }
        Err(refusal) => {
            drop(user);
            drop(schema);
            Err(refusal)
        }
    }
}

/// The batch of a row that the table takes.
fn batch_of(alloc: Global, schema: &TableSchema, row: &str) -> Result<Batch, Refusal>
    requires { IsDeclared schema.now }
    ensures read { IfOk result (λ batch. (rows : List HistoryRow) × IsBatchOf schema.now rows batch) }
    ensures few { IfOk result (λ batch. length batch ≤ group_limit) }
    ensures some { IfOk result (λ batch. batch ≢ []) }
{
    let lines = lines_of(alloc, row)?;
    let batch = read_batch(alloc, schema, lines)?;
    if batch.is_empty() {
        drop(batch);
        return Err(Refusal::NoTable);
    }
    Ok(batch)
}

/// The batch of the rows that the table takes of lines.
fn read_batch(alloc: Global, schema: &TableSchema, lines: InputLines) -> Result<Batch, Refusal>
    requires { IsDeclared schema.now }
    ensures read { IfOk result (λ batch. (rows : List HistoryRow) × IsBatchOf schema.now rows batch) }
    ensures few { IfOk result (λ batch. length batch ≤ group_limit) }
{
    batch_law();
    declared_law();
    let engine = TableEngine::of_schema(alloc, schema)?;
    let batch = Batch::read(alloc, schema, &engine, lines);
    drop(engine);
    batch
}

/// The lines of a text.
fn lines_of(alloc: Global, text: &str) -> Result<InputLines, Refusal> {
    let bytes = Vec::from_slice(alloc, text.as_bytes())?;
    let mut source = MemSource::new(bytes, Vec::new(alloc));
    match read_lines(alloc, &mut source, &LIMITS) {
        Ok(lines) => Ok(lines),
        Err(fault) => Err(refusal_of(alloc, fault)?),
    }
}

/// A writer after its next call, where one is left.
pub(crate) fn take_turn<F: FileStore>(alloc: Global, writer: Writer, store: &mut F) -> Writer {
    match writer {
        Writer::Open(Open { committer }) => make_call(alloc, committer, store),
        done => done,
    }
}

/// A writer after the next call of its committer.
fn make_call<F: FileStore>(alloc: Global, committer: Committer, store: &mut F) -> Writer
    requires { 0 < calls_left committer }
{
    let mut committer = committer;
    match commit_step(alloc, &mut committer, store) {
        Ok(CommitStep::More) => Writer::Open(Open { committer }),
        Ok(CommitStep::Committed(id)) => {
            drop(committer);
            Writer::Committed(id)
        }
        Ok(CommitStep::Already) => {
            drop(committer);
            Writer::Already
        }
        Err(refusal) => {
            drop(committer);
            Writer::Refused(refusal)
        }
    }
}

/// Says the answer of a writer.
pub(crate) fn say_writer(case: &mut Case, writer: Writer) {
    match writer {
        Writer::Open(open) => {
            drop(open);
            case.say("goes on");
        }
        Writer::Committed(id) => case.say_made(format!(in case.alloc(); "snapshot {id}")),
        Writer::Already => case.say("already"),
        Writer::Refused(refusal) => case.refuse(refusal),
    }
}
