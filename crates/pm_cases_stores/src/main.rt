//! The cases of streams and of stores, a line in and a line out: each line of standard input names what is tried, and
//! its arguments, with a TAB between them, and the line that is printed for it is the answer. Blank lines and lines
//! that begin with `#` are printed as they are, so that both texts can be read side by side.
//!
//! | What is tried | Arguments | Answer |
//! |---|---|---|
//! | `source` | see `stream.rt` | the lines of a source that fails |
//! | `sink` | see `stream.rt` | what a sink takes, and whether that is all |
//! | `store` | `memory`, `fails` and a plan, or `folder` and a name; calls | their answers, on a folder of two stores |
//!
//! Calls stand with semicolons between them, in the words of `calls.rt` of `pm_cases_calls`.
#![tactic(auto)]

mod foreign;
mod store;
mod stream;

use pm_cases::Case;
use pm_cases_calls::split_at_blank;
use std::alloc::AllocError;
use std::io;

/// Answers each line of standard input.
fn main(rt: HostRuntime) -> io::Result<()> {
    for line in rt.lines(rt.alloc()) {
        let answer = answer(&rt, line?.as_str())?;
        println!(rt; "{answer}")?;
    }
    Ok(())
}

/// What is printed for a line.
fn answer(rt: &HostRuntime, line: &str) -> Result<String, AllocError> {
    let mut case = Case::new(rt.alloc());
    if line.is_empty() || line.starts_with('#') {
        case.say(line);
    } else {
        answer_line(rt, &mut case, line);
    }
    case.into_answer()
}

/// Says what comes of a line.
fn answer_line(rt: &HostRuntime, case: &mut Case, line: &str) {
    let (tried, rest) = case.split(line);
    match tried {
        "source" => stream::source_answer(case, rest),
        "sink" => stream::sink_answer(case, rest),
        "store" => answer_store(rt, case, rest),
        _ => case.reject(),
    }
}

/// Says what a store of a kind answers to calls.
fn answer_store(rt: &HostRuntime, case: &mut Case, rest: &str) {
    let (kind, calls) = case.split(rest);
    match split_at_blank(kind) {
        ("memory", _) => store::memory_answer(case, calls),
        ("fails", plan) => store::failing_answer(case, plan, calls),
        ("folder", folder) => store::folder_answer(rt, case, folder, calls),
        _ => case.reject(),
    }
}
