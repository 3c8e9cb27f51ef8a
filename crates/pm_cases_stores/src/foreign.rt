//! What somebody else makes in a real folder, past its store.

use pm_cases::Case;
use pm_cases_calls::split_at_blank;
use std::os::unix::fs::symlink;
use std::{fs, io};

/// Makes a link with its text, a folder, or a file with its bytes, at a path from where the program runs, and says so.
pub fn say_foreign(rt: &HostRuntime, case: &mut Case, act: &str) {
    match make(rt, act) {
        Ok(()) => case.say("made"),
        Err(error) => {
            drop(error);
            case.reject();
        }
    }
}

/// Makes what `link PATH TEXT`, `folder PATH` or `file PATH BYTES` says.
fn make(rt: &HostRuntime, act: &str) -> io::Result<()> {
    let (word, rest) = split_at_blank(act);
    let (path, text) = split_at_blank(rest);
    match word {
        "link" => symlink(rt, text, path),
        "folder" => fs::create_dir(rt, path),
        _ => fs::write(rt, path, text),
    }
}
