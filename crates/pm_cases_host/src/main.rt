//! The cases of what the store on a folder asks of its host, which is a double of the operating system here, a line in
//! and a line out: each line of standard input names what is tried, and its arguments, with a TAB between them, and the
//! line that is printed for it is the answer. Blank lines and lines that begin with `#` are printed as they are, so
//! that both texts can be read side by side.
//!
//! | What is tried | Arguments | Answer |
//! |---|---|---|
//! | `calls` | what stands there, acts | each act's answer, and what it asked the host for |
//! | `images` | paths, what stands there, acts | what each act's images show before and after it answers |
//! | `fails` | a kind of error, paths, what stands there, acts | what comes of each call of the host that fails |
//! | `rival` | paths, what stands there, acts, an act | what comes of a rival's act before each call of the last act |
//!
//! What stands there is said in the words of `state.rt` of `pm_cases_double`. Acts stand with semicolons between them:
//! the calls of the store, as in `calls.rt` of `pm_cases_calls`, on the folder `t`, and those of `process.rt`. Paths
//! that are asked for are the store's, and the double's where they begin with a slash.
#![tactic(auto)]

mod failing;
mod outcomes;
mod process;
mod rival;
mod shown;
mod stopping;
mod trial;

use crate::failing::say_fails;
use crate::rival::say_rival;
use crate::stopping::{say_calls, say_images};
use crate::trial::Trial;
use pm_cases::Case;
use pm_folder_store::HostError;
use std::alloc::AllocError;
use std::io;

/// Answers each line of standard input.
fn main(rt: HostRuntime) -> io::Result<()> {
    for line in rt.lines(rt.alloc()) {
        let answer = answer(&rt, line?.as_str())?;
        println!(rt; "{answer}")?;
    }
    Ok(())
}

/// What is printed for a line.
fn answer(rt: &HostRuntime, line: &str) -> Result<String, AllocError> {
    let mut case = Case::new(rt.alloc());
    if line.is_empty() || line.starts_with('#') {
        case.say(line);
    } else {
        let (tried, rest) = case.split(line);
        if answer_line(&mut case, tried, rest).is_err() {
            case.reject();
        }
    }
    case.into_answer()
}

/// Says what comes of a line.
fn answer_line(case: &mut Case, tried: &str, rest: &str) -> Result<(), HostError> {
    match tried {
        "calls" => {
            let trial = trial_of(case, "", rest);
            say_calls(case, &trial)
        }
        "images" => {
            let (asked, rest) = case.split(rest);
            let trial = trial_of(case, asked, rest);
            say_images(case, &trial)
        }
        "fails" => answer_fails(case, rest),
        "rival" => answer_rival(case, rest),
        _ => Err(HostError::Other),
    }
}

/// What is tried: what stands there, and the acts.
fn trial_of<'a>(case: &mut Case, asked: &'a str, rest: &'a str) -> Trial<'a> {
    let (state, acts) = case.split(rest);
    Trial {
        alloc: case.alloc(),
        asked,
        state,
        acts,
    }
}

/// Says what comes of failures.
fn answer_fails(case: &mut Case, rest: &str) -> Result<(), HostError> {
    let (kind, rest) = case.split(rest);
    let (asked, rest) = case.split(rest);
    let trial = trial_of(case, asked, rest);
    say_fails(case, &trial, kind_of(kind))
}

/// Says what comes of a rival.
fn answer_rival(case: &mut Case, rest: &str) -> Result<(), HostError> {
    let (asked, rest) = case.split(rest);
    let (state, rest) = case.split(rest);
    let (acts, rival) = case.split(rest);
    let trial = Trial {
        alloc: case.alloc(),
        asked,
        state,
        acts,
    };
    say_rival(case, &trial, rival)
}

/// The kind of error of a word.
fn kind_of(word: &str) -> HostError {
    match word {
        "memory" => HostError::OutOfMemory,
        "absent" => HostError::NotFound,
        "denied" => HostError::PermissionDenied,
        "invalid" => HostError::InvalidInput,
        "readonly" => HostError::ReadOnlyFilesystem,
        _ => HostError::Other,
    }
}
