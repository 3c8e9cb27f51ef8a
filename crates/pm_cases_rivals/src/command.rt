//! A command, with what it answers.

use pm_cases::{Case, ROOM};
use pm_cli::{Start, run};
use pm_io::{MemSink, MemSource};
use pm_store::FileStore;
use pm_values::Txt;

/// Runs the command of these words, with a blank between them, by the session that ends in this byte: says its status,
/// what it printed, and what it said.
pub fn run_command<F: FileStore>(
    case: &mut Case,
    store: &mut F,
    session: u8,
    words: &str,
    input: &[u8],
) {
    let given = words_of(case, words);
    match Vec::from_slice(case.alloc(), input) {
        Ok(input) => run_words(case, store, session, &given, input),
        Err(_) => case.run_out(),
    }
    drop(given);
}

/// Words with a blank between them.
fn words_of(case: &mut Case, words: &str) -> Vec<Txt> {
    let mut given = Vec::new(case.alloc());
    for word in words.split(' ') {
        match Txt::from_str(case.alloc(), word) {
            Ok(word) => case.push(&mut given, word),
            Err(_) => case.run_out(),
        }
    }
    given
}

/// Runs a command on its input.
fn run_words<F: FileStore>(
    case: &mut Case,
    store: &mut F,
    session: u8,
    words: &[Txt],
    input: Vec<u8>,
) {
    let alloc = case.alloc();
    let mut source = MemSource::new(input, Vec::new(alloc));
    match MemSink::new(alloc, ROOM, Vec::new(alloc)) {
        Ok(out) => run_into(case, store, session, words, &mut source, out),
        Err(_) => case.run_out(),
    }
    drop(source);
}

/// Runs a command where it prints.
fn run_into<F: FileStore>(
    case: &mut Case,
    store: &mut F,
    session: u8,
    words: &[Txt],
    source: &mut MemSource,
    out: MemSink,
) {
    let alloc = case.alloc();
    let mut out = out;
    match MemSink::new(alloc, ROOM, Vec::new(alloc)) {
        Ok(err) => execute(case, store, session, words, source, &mut out, err),
        Err(_) => case.run_out(),
    }
    drop(out);
}

/// Executes a command, and says what it answers.
fn execute<F: FileStore>(
    case: &mut Case,
    store: &mut F,
    session: u8,
    words: &[Txt],
    source: &mut MemSource,
    out: &mut MemSink,
    err: MemSink,
) {
    let mut err = err;
    let mut start = Start {
        session: [0; 16],
        number: 0,
        now_millis: 1000,
    };
    start.session[15] = session;
    let status = run(case.alloc(), words, source, out, &mut err, store, &start);
    case.say_made(format!(in case.alloc(); "{} ", status.code));
    case.say_quoted_bytes(out.bytes());
    case.say(" ");
    case.say_quoted_bytes(err.bytes());
    drop(status);
    drop(err);
}
