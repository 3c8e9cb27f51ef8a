//! Commands on a real folder, through two stores of it.

use pm_cases::Case;
use pm_cases_calls::TwoStores;
use pm_cases_rivals::{compactors, run_command, writers};
use pm_store::{FileStore, Made};

/// What is answered of a folder, of which two stores are opened before any call.
pub fn answer(rt: &HostRuntime, case: &mut Case, tried: &str, folder: &str, rest: &str) {
    match TwoStores::open(rt, case.alloc(), folder) {
        Some(stores) => {
            let mut stores = stores;
            answer_of(case, tried, &mut stores.one, &mut stores.other, rest);
            drop(stores);
        }
        None => case.say("no store"),
    }
}

/// The same of the stores.
fn answer_of<F: FileStore>(case: &mut Case, tried: &str, store: &mut F, other: &mut F, rest: &str) {
    match tried {
        "created" => say_created(case, store, other, rest),
        "scanned" => say_scanned(case, store, other, rest),
        "compactors" => compactors::answer(case, store, other, rest),
        _ => writers::answer(case, store, other, rest),
    }
}

/// Says what `create` answers through one store and then through the other, and then `snapshots` through the first.
fn say_created<F: FileStore>(case: &mut Case, store: &mut F, other: &mut F, draft: &str) {
    run_command(case, store, 1, "create", draft.as_bytes());
    case.say(" | ");
    run_command(case, other, 2, "create", draft.as_bytes());
    case.say(" | ");
    run_command(case, store, 3, "snapshots", &[]);
}

/// Says what `scan` answers through the other store once files were created: each is a path and its bytes.
fn say_scanned<F: FileStore>(case: &mut Case, store: &mut F, other: &mut F, files: &str) {
    let mut words = files.split('\t');
    while let Some(path) = words.next() {
        let bytes = case.bytes(words.next().unwrap_or(""));
        create_file(case, store, path, &bytes);
    }
    run_command(case, other, 1, "scan", &[]);
}

/// Creates a file. Where it isn't created it is no case.
fn create_file<F: FileStore>(case: &mut Case, store: &mut F, path: &str, bytes: &[u8]) {
    match store.create(case.alloc(), path, bytes) {
        Ok(Made::Created) => {}
        _ => case.reject(),
    }
}
