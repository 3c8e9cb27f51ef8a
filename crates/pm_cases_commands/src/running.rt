//! The running of commands.

use crate::files::checksum;
use pm_cases_lines::{Command, ROOM};
use pm_cli::{Start, run};
use pm_io::{MemSink, MemSource};
use pm_store::FileStore;
use std::alloc::{AllocError, Global};

/// Runs a command on a store: what it printed, what it said of a refusal, and its status.
pub fn run_on<F: FileStore>(
    alloc: Global,
    command: &Command,
    store: &mut F,
) -> Result<String, AllocError> {
    let mut input = open_input(alloc, command)?;
    let text = run_from(alloc, command, &mut input, store);
    drop(input);
    text
}

/// The input of a command, whose reads fail as the command says.
fn open_input(alloc: Global, command: &Command) -> Result<MemSource, AllocError> {
    let bytes = Vec::from_slice(alloc, command.input.as_slice())?;
    let fails = Vec::from_slice(alloc, command.source.as_slice())?;
    Ok(MemSource::new(bytes, fails))
}

/// Runs a command on its input.
fn run_from<F: FileStore>(
    alloc: Global,
    command: &Command,
    input: &mut MemSource,
    store: &mut F,
) -> Result<String, AllocError> {
    let fails = Vec::from_slice(alloc, command.sink.as_slice())?;
    let mut out = MemSink::new(alloc, command.room, fails)?;
    let text = run_into(alloc, command, input, &mut out, store);
    drop(out);
    text
}

/// Runs a command where it prints.
fn run_into<F: FileStore>(
    alloc: Global,
    command: &Command,
    input: &mut MemSource,
    out: &mut MemSink,
    store: &mut F,
) -> Result<String, AllocError> {
    let mut err = MemSink::new(alloc, ROOM, Vec::new(alloc))?;
    let code = execute(alloc, command, input, out, &mut err, store);
    let text = print_ran(alloc, out.bytes(), command.sum, err.bytes(), code);
    drop(err);
    text
}

/// Executes a command, and gives its status.
fn execute<F: FileStore>(
    alloc: Global,
    command: &Command,
    input: &mut MemSource,
    out: &mut MemSink,
    err: &mut MemSink,
    store: &mut F,
) -> u8 {
    let mut session = [0; 16];
    session[15] = command.session;
    let status = run(
        alloc,
        command.words.as_slice(),
        input,
        out,
        err,
        store,
        &Start {
            session,
            number: 0,
            now_millis: command.now,
        },
    );
    let code = status.code;
    drop(status);
    code
}
/// What was printed, what was said of a refusal, and a status.
fn print_ran(
    alloc: Global,
    out: &[u8],
    sum: bool,
    err: &[u8],
    code: u8,
) -> Result<String, AllocError> {
    let out = print_out(alloc, out, sum)?;
    let err = String::from_utf8_lossy(alloc, err)?;
    format!(in alloc; "{out}{err}-- {code}\n")
}

/// What was printed; or how many bytes, and their checksum.
fn print_out(alloc: Global, out: &[u8], sum: bool) -> Result<String, AllocError> {
    if sum {
        format!(in alloc; "{} {}\n", out.len(), checksum(out))
    } else {
        String::from_utf8_lossy(alloc, out)
    }
}
