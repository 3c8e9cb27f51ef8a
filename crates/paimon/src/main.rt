//! The program: `paimon FOLDER COMMAND ..` runs one command on the folder, over standard input, output and
//! error. It ends with 0, or with the number of the refusal.
#![tactic(auto)]

ghost use Rattle.std.specs.Prelude.{◌≡◌, codes, true, false};

use pm_cli::{Start, run};
use pm_folder_store::{FolderStore, System};
use pm_io::{StdSink, StdSource};
use pm_store::StoreFail;
use pm_values::Txt;
use std::alloc::AllocError;
use std::io::ErrorKind;
use std::process::ExitCode;
use std::random::RandomSource;
use std::time::SystemTime;
use std::{env, io};

/// The exit status where the words can't be had. No refusal speaks of this and the next two.
const NO_WORDS: u8 = 100;

/// The exit status where the clock can't be read.
const NO_CLOCK: u8 = 101;

/// The exit status where no random bytes can be had.
const NO_RANDOM_BYTES: u8 = 102;

/// Runs the command of the command line, and ends with its status.
fn main(rt: HostRuntime) -> ExitCode {
    let code = match read_words(&rt) {
        Ok(words) => match words.split_first() {
            Some((folder, words)) => run_command(&rt, folder, words),
            None => said(&rt, "E2 words ", 2),
        },
        Err(e) if e.kind() == ErrorKind::InvalidData => said(&rt, "E2 words ", 2),
        Err(e) => failed(&e, NO_WORDS),
    };
    ExitCode::from(code)
}

/// Runs the command that the words give on a folder. The folder is opened before the words are judged, and
/// nothing is made of it.
fn run_command(rt: &HostRuntime, folder: &Txt, words: &[Txt]) -> u8 {
    let mut store = match open_store(rt, folder) {
        Ok(store) => store,
        Err(StoreFail::Memory) => return said(rt, "E1 memory", 1),
        Err(StoreFail::Failed) => return said(rt, "E5 store .", 5),
    };
    let now_millis = match millis(rt) {
        Ok(now_millis) => now_millis,
        Err(e) => return failed(&e, NO_CLOCK),
    };
    let mut session = [0; 16];
    if let Err(e) = rt.fill_bytes(&mut session) {
        return failed(&e, NO_RANDOM_BYTES);
    }
    let mut input = StdSource::new(rt.stdin());
    let mut out = StdSink::new(rt.stdout());
    let mut err = StdSink::new(rt.stderr());
    let start = Start {
        session,
        number: 0,
        now_millis,
    };
    let status = run(
        rt.alloc(),
        words,
        &mut input,
        &mut out,
        &mut err,
        &mut store,
        &start,
    );
    status.code
}

/// A store on a folder. Where the process can enter that, paths are looked up from within, which takes less time; the
/// command then stays in it, where the folder's name leads to another one meanwhile.
fn open_store(
    rt: &HostRuntime,
    folder: &Txt,
) -> Result<FolderStore<System<HostRuntime>>, StoreFail> {
    let is_inside = env::set_current_dir(rt, folder.as_str()).is_ok();
    let root = root_of(is_inside, folder.as_str());
    FolderStore::open(rt.alloc(), System::new(rt.clone()?), root)
}

/// The root of a store: the folder that the process is in, or the folder by its name.
fn root_of(is_inside: bool, folder: &str) -> &str
    ensures inside { is_inside ≡ true → result.now ≡ codes "." }
    ensures outside { is_inside ≡ false → result ≡ folder.entry }
{
    if is_inside { "." } else { folder }
}

/// The words of the command line after the program's name.
fn read_words(rt: &HostRuntime) -> io::Result<Vec<Txt>> {
    let mut words = Vec::new(rt.alloc());
    for word in env::args(rt)?.skip(1) {
        words.push(Txt::from_str(rt.alloc(), word.as_str())?)?;
    }
    Ok(words)
}

/// The milliseconds from 1970-01-01T00:00:00.
fn millis(rt: &HostRuntime) -> io::Result<i64> {
    let now = SystemTime::now(rt)?;
    let since = now.duration_since(SystemTime::UNIX_EPOCH);
    let millis = since.map_or(0, |since| since.as_millis());
    Ok(i64::try_from(millis).unwrap_or(i64::MAX))
}

/// The exit status of an error: 1 where there was no memory, else the given one.
fn failed(error: &io::Error, code: u8) -> u8 {
    if error.kind() == ErrorKind::OutOfMemory {
        1
    } else {
        code
    }
}

/// Prints a line to standard error, and gives the exit status.
fn said(rt: &HostRuntime, line: &str, code: u8) -> u8 {
    let _ = rt.eprintln(line);
    code
}
