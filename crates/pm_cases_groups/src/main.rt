//! The cases of groups, a line in and a line out: each line of standard input names what is tried and its arguments,
//! with a TAB between them, and the line that is printed for it is the answer. Blank lines and lines that begin with
//! `#` are printed as they are, so that both texts can be read side by side.
//!
//! | What is tried | Arguments | Answer |
//! |---|---|---|
//! | `hashes` | a number of buckets, numbers with blanks between them | the hash of each as a key, `:` and its bucket |
//! | `folder` | a draft, a bucket, a row line of the partition's values | the group's folder; `too long` before it |
//! | `timed-hashes` | a count, a number of rounds | in how many milliseconds so many numbers are hashed, both ways |
//!
//! A row line has the values of the partition columns alone, in the order in which their folders nest. `timed-hashes`
//! is for a script of `bench/`: it hashes all numbers at once, and then one by one, and says the sums of both.
#![tactic(auto)]

mod folder;
mod hashes;
mod timed_hashes;

use pm_cases::Case;
use std::alloc::AllocError;
use std::io;

/// Answers each line of standard input.
fn main(rt: HostRuntime) -> io::Result<()> {
    for line in rt.lines(rt.alloc()) {
        let answer = answer(&rt, line?.as_str())?;
        println!(rt; "{answer}")?;
    }
    Ok(())
}

/// What is printed for a line.
fn answer(rt: &HostRuntime, line: &str) -> Result<String, AllocError> {
    let mut case = Case::new(rt.alloc());
    if line.is_empty() || line.starts_with('#') {
        case.say(line);
    } else {
        let (codec, arguments) = line.split_once('\t').unwrap_or((line, ""));
        answer_case(rt, &mut case, codec, arguments);
    }
    case.into_answer()
}

/// What is answered of what is tried.
fn answer_case(rt: &HostRuntime, case: &mut Case, codec: &str, arguments: &str) {
    match codec {
        "hashes" => hashes::answer(case, arguments),
        "folder" => folder::answer(case, arguments),
        "timed-hashes" => timed_hashes::answer(rt, case, arguments),
        _ => case.reject(),
    }
}
