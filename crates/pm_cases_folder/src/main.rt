//! The cases of commands on a real folder, and of the lines of an input, a line in and a line out: each line of
//! standard input names what is tried, and its arguments, with a TAB between them, and the line that is printed for it
//! is the answer. Blank lines and lines that begin with `#` are printed as they are, so that both texts can be read
//! side by side.
//!
//! | What is tried | Arguments | Answer |
//! |---|---|---|
//! | `lines` | the number of a read that fails, or 0; a text | the lines that aren't blank, or why not |
//! | `created` | a name, a draft | `create` through one store of that folder and through another, then `snapshots` |
//! | `scanned` | a name; paths, each with a file's bytes | `scan` of that folder, in which these files were created |
//! | `writers` | a name, the table's commits, two row lines | two writers of it in turn, by `pm_cases_rivals` |
//! | `compactors` | a name, the table's commits, a row line | two compactors and a writer in turn, by the same crate |
//!
//! Arguments are spelt as those of `pm_cases_codecs`.
#![tactic(auto)]

mod lines;
mod real_folder;

use pm_cases::Case;
use std::alloc::AllocError;
use std::io;

/// Answers each line of standard input.
fn main(rt: HostRuntime) -> io::Result<()> {
    for line in rt.lines(rt.alloc()) {
        let answer = answer(&rt, line?.as_str())?;
        println!(rt; "{answer}")?;
    }
    Ok(())
}

/// What is printed for a line.
fn answer(rt: &HostRuntime, line: &str) -> Result<String, AllocError> {
    let mut case = Case::new(rt.alloc());
    if line.is_empty() || line.starts_with('#') {
        case.say(line);
    } else {
        let (tried, arguments) = line.split_once('\t').unwrap_or((line, ""));
        answer_line(rt, &mut case, tried, arguments);
    }
    case.into_answer()
}

/// What is answered of an input or a real folder.
fn answer_line(rt: &HostRuntime, case: &mut Case, tried: &str, arguments: &str) {
    let (first, rest) = arguments.split_once('\t').unwrap_or((arguments, ""));
    match tried {
        "lines" => lines::lines_answer(case, arguments),
        "created" | "scanned" | "writers" | "compactors" => real_folder::answer(
            rt, case, tried, first, rest,
        ),
        _ => case.reject(),
    }
}
