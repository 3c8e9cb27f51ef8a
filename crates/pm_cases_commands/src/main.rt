//! Commands on stores in memory, as data: standard input is a case file, and standard output is what each of its lines
//! prints. A case is a store, what is done to it, and the commands that run on it. Each line is a JSON array:
//!
//! | Line | Does | Prints |
//! |---|---|---|
//! | `["case",NAME]` | begins with a store without files | `== NAME` |
//! | `["again",MOST]` | the lines of the last case that has its own, a run as runs of MOST lines | what they print |
//! | `["note",TEXT]` | nothing: says what comes and whose answers it has | |
//! | `["name",NAME,BYTES]` | from here on the name stands for these bytes | |
//! | `["store",[[CALL,EFFECT],..]]` | right after a case: its store fails these calls | |
//! | `["as",CASE]` | right after a case or its store: begins with the files that this earlier case ended with | |
//! | `["put",PATH,BYTES]` | puts a file with these bytes in place, or replaces it | |
//! | `["edit",PATH,NAME,OLD,NEW]` | puts what the name stands for, with NEW in the place of the first OLD | |
//! | `["take",PATH]` | takes a file away | |
//! | `["run",SESSION,NOW,[WORD,..],[LINE,..]]` | runs a command | what `out` and `err` took, then `-- STATUS` |
//! | the same with an object of options | the same, and streams fail | the same |
//! | `["before",CALL,LINE]` | others put, edit, take or run as LINE says, before this call of the next command | |
//! | `["calls"]` | | how many calls the last command made |
//! | `["list",FOLDER]` | | the names that stand right in the folder |
//! | `["files"]` | | each path, its length and its checksum, rising by the paths' bytes |
//! | `["files","sum"]` | | how many files, and the checksum of what `["files"]` prints |
//!
//! The calls of a case's commands are numbered together, from 1; putting and taking files has no number, and neither
//! has what others do. What is to be done before a call is done after the call is counted, in the order of the lines;
//! CALL is counted from the command's first call, and where the command makes fewer it isn't done. An effect is
//! `none`, `whole`, `absent`, or `part HEX`, the bytes that a create leaves. A session is fifteen zero bytes and then
//! SESSION. The input is the lines, each with its newline. Of the options `open` leaves the last newline out, `room` is
//! how many bytes `out` takes, `source` and `sink` list the numbers of the calls of the input and of `out` that fail,
//! and `sum` prints in place of what `out` took how many bytes it took and their checksum.
//!
//! LINE and BYTES are one of these:
//!
//! | Part | Stands for |
//! |---|---|
//! | a name | its bytes |
//! | another text | as a LINE itself, and as BYTES those of its hexadecimal digits, or of TEXT where it is `'TEXT` |
//! | an object, or an array that begins with a row's kind | its compact JSON, an object's members rising by name |
//! | another array | its texts one after another |
//!
//! Behind a text of an array may stand how many times it comes, or `[FROM,TO]`: then TEXT comes itself for each number
//! from FROM to below TO, or from below FROM down to TO, with the number in the place of each `#`.
//!
//! A case may have the line `again` alone. Where a run's input has more than MOST lines it is run for the first MOST of
//! them, then for the next, and so on, each with the session after that of the run before.
//!
//! Each other line prints `unknown case line`.
//!
//! Unproved the cases take minutes, more than the one that `rt try` gives a program: `RT_SECONDS=900 rt try < stdin`.
#![tactic(auto)]

mod act;
mod cases;
mod files;
mod running;
mod store;

use crate::cases::Cases;
use crate::files::{files_text, list_text, sum_text};
use crate::running::run_on;
use crate::store::CaseStore;
use pm_cases_lines::{Command, Deed, Line, LineFault, Step, cut_lines, read_line};
use std::alloc::{AllocError, Global};
use std::io::{BufRead, BufReader};
use std::{io, mem};

/// Does what each line of standard input says, and prints what is to be printed for it.
fn main(rt: HostRuntime) -> io::Result<()> {
    let alloc = rt.alloc();
    let mut cases = Cases::new(alloc);
    for line in BufReader::new(alloc, rt.reader())?.lines(alloc) {
        let answer = answer(alloc, &mut cases, line?.as_str())?;
        print!(rt; "{answer}")?;
    }
    Ok(())
}

/// What is printed for a line, after it is done.
fn answer(alloc: Global, cases: &mut Cases, text: &str) -> Result<String, AllocError> {
    match read_line(alloc, cases.names(), text) {
        Ok(Line::Case { name }) => cases.begin(alloc, name),
        Ok(Line::Again { most }) => answer_again(alloc, cases, most),
        Ok(Line::Name { name, bytes }) => {
            cases.add_name(name, bytes)?;
            Ok(String::new(alloc))
        }
        Ok(Line::Note) => Ok(String::new(alloc)),
        Ok(Line::Step(step)) => {
            let printed = follow(alloc, cases, step)?;
            cases.keep_line(alloc, text)?;
            Ok(printed)
        }
        Err(LineFault::Memory) => Err(AllocError),
        Err(LineFault::Unknown) => unknown(alloc),
    }
}

/// What is printed for the lines of the last case that has its own, each run in runs of so many lines.
fn answer_again(alloc: Global, cases: &mut Cases, most: u64) -> Result<String, AllocError> {
    let lines = cases.take_lines(alloc);
    let mut printed = String::new(alloc);
    for line in lines.iter() {
        let answer = answer_cut(alloc, cases, line.as_str(), most)?;
        printed.push_str(answer.as_str())?;
    }
    cases.give_lines(lines);
    Ok(printed)
}

/// What is printed for a line of a case, where a command runs once for so many lines of its input.
fn answer_cut(
    alloc: Global,
    cases: &mut Cases,
    text: &str,
    most: u64,
) -> Result<String, AllocError> {
    match read_line(alloc, cases.names(), text) {
        Ok(Line::Step(Step::Do(Deed::Run(command)))) => {
            run_cut(alloc, cases.store(), command, most)
        }
        Ok(Line::Step(step)) => follow(alloc, cases, step),
        Err(LineFault::Memory) => Err(AllocError),
        _ => unknown(alloc),
    }
}

/// Runs a command for each piece of its input, with a session of its own.
fn run_cut(
    alloc: Global,
    store: &mut CaseStore,
    mut command: Command,
    most: u64,
) -> Result<String, AllocError> {
    let mut printed = String::new(alloc);
    for piece in cut_lines(alloc, command.input.as_slice(), most)? {
        drop(mem::replace(&mut command.input, piece));
        let answer = run_command(alloc, store, &command)?;
        printed.push_str(answer.as_str())?;
        command.session = command.session.wrapping_add(1);
    }
    Ok(printed)
}

/// What is printed for a line that is none.
fn unknown(alloc: Global) -> Result<String, AllocError> {
    String::from_str(alloc, "unknown case line\n")
}

/// Does what a line of a case says, and gives what is printed for it.
fn follow(alloc: Global, cases: &mut Cases, step: Step) -> Result<String, AllocError> {
    match step {
        Step::Store { plan } => cases.plan(alloc, plan),
        Step::As { name } => return continue_from(alloc, cases, name.as_str()),
        Step::Do(deed) => return perform(alloc, cases.store(), &deed),
        Step::Before(act) => cases.store().add_act(act)?,
        Step::Calls => return format!(in alloc; "{} calls\n", cases.store().command_calls()),
        Step::List { folder } => return list_text(alloc, cases.store(), folder.as_str()),
        Step::Files => return files_text(alloc, cases.store()),
        Step::Sum => return sum_text(alloc, cases.store()),
    }
    Ok(String::new(alloc))
}

/// Begins with the files that an earlier case ended with.
fn continue_from(alloc: Global, cases: &mut Cases, name: &str) -> Result<String, AllocError> {
    if cases.copy_files(alloc, name)? {
        Ok(String::new(alloc))
    } else {
        unknown(alloc)
    }
}

/// Does what a line says with files, and gives what is printed for it.
fn perform(alloc: Global, store: &mut CaseStore, deed: &Deed) -> Result<String, AllocError> {
    if let Deed::Run(command) = deed {
        return run_command(alloc, store, command);
    }
    store.apply(alloc, deed)?;
    Ok(String::new(alloc))
}

/// Runs a command, and gives what is printed for it.
fn run_command(
    alloc: Global,
    store: &mut CaseStore,
    command: &Command,
) -> Result<String, AllocError> {
    store.begin_command();
    let text = run_on(alloc, command, store)?;
    store.end_command();
    Ok(text)
}
