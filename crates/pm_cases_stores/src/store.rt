//! Calls of a store, one after another: of one in memory, of one that fails, and of two on one folder.

use crate::foreign::say_foreign;
use pm_base::Blob;
use pm_cases::{Case, say_between};
use pm_cases_calls::{TwoStores, say_call, split_at_blank};
use pm_store::{Effect, FailStore, FileStore, MemStore, Planned};
use std::alloc::{AllocError, Global};
use std::{fs, io};

/// The answers of calls on a store in memory, and how many operations it has.
pub fn memory_answer(case: &mut Case, calls: &str) {
    let mut store = MemStore::new(case.alloc());
    make_calls(case, &mut store, calls);
    case.say_made(format!(in case.alloc(); " | {} operations", store.ops().len()));
    drop(store);
}

/// The same of a store whose calls fail as a plan says.
pub fn failing_answer(case: &mut Case, plan: &str, calls: &str) {
    let plan = read_plan(case, plan);
    let mut store = FailStore::new(case.alloc(), plan);
    make_calls(case, &mut store, calls);
    case.say_made(format!(in case.alloc(); " | {} operations", store.ops().len()));
    drop(store);
}

/// The calls that fail, as `NUMBER=EFFECT` with blanks between them.
fn read_plan(case: &mut Case, text: &str) -> Vec<Planned> {
    let mut plan = Vec::new(case.alloc());
    for part in text.split(' ') {
        let (call, effect) = part.split_once('=').unwrap_or((part, ""));
        push_planned(case, &mut plan, call.parse::<u64>().unwrap_or(0), effect);
    }
    plan
}

/// Adds a call that fails with an effect: `none`, `whole`, `absent`, or else the bytes that a create leaves.
fn push_planned(case: &mut Case, plan: &mut Vec<Planned>, call: u64, effect: &str) {
    match read_effect(case.alloc(), effect) {
        Ok(effect) => {
            let planned = Planned { call, effect };
            case.push(plan, planned);
        }
        Err(_) => case.run_out(),
    }
}

/// The effect of a text.
fn read_effect(alloc: Global, text: &str) -> Result<Effect, AllocError> {
    match text {
        "none" => Ok(Effect::None),
        "whole" => Ok(Effect::Whole),
        "absent" => Ok(Effect::Part(None)),
        bytes => Ok(Effect::Part(Some(Blob::from_slice(alloc, bytes.as_bytes())?))),
    }
}

/// Says the answers of calls with semicolons between them.
fn make_calls<F: FileStore>(case: &mut Case, store: &mut F, calls: &str) {
    let mut is_later = false;
    for call in calls.split(';') {
        say_between(case, is_later, "; ");
        say_call(case, store, call);
        is_later = true;
    }
}

/// The answers of calls on two stores on a folder. Both are opened before the first call.
pub fn folder_answer(rt: &HostRuntime, case: &mut Case, folder: &str, calls: &str) {
    match TwoStores::open(rt, case.alloc(), folder) {
        Some(stores) => {
            let mut stores = stores;
            make_calls_in(rt, case, &mut stores.one, &mut stores.other, folder, calls);
            drop(stores);
        }
        None => case.say("no store"),
    }
}

/// Says the answers of calls on a store on the folder, and on another where `other` stands before the call. `hidden`
/// counts the names with a dot in the folder, and the files that were begun; `foreign` makes something past the store.
fn make_calls_in<F: FileStore>(
    rt: &HostRuntime,
    case: &mut Case,
    store: &mut F,
    other: &mut F,
    folder: &str,
    calls: &str,
) {
    let mut is_later = false;
    for call in calls.split(';') {
        say_between(case, is_later, "; ");
        match split_at_blank(call) {
            ("hidden", _) => say_hidden(rt, case, folder),
            ("foreign", act) => say_foreign(rt, case, act),
            ("other", call) => say_call(case, other, call),
            _ => say_call(case, store, call),
        }
        is_later = true;
    }
}

/// Says how many names of a folder begin with a dot, and how many files stand that are being written.
fn say_hidden(rt: &HostRuntime, case: &mut Case, folder: &str) {
    match hidden(rt, case.alloc(), folder) {
        Ok(Some((hidden, begun))) => {
            case.say_made(format!(in case.alloc(); "{hidden} hidden, {begun} begun"));
        }
        Ok(None) => case.say("no folder"),
        Err(error) => {
            drop(error);
            case.reject();
        }
    }
}

/// How many names of a folder begin with a dot, and how many files stand that are being written; none where there is no
/// folder.
fn hidden(rt: &HostRuntime, alloc: Global, folder: &str) -> io::Result<Option<(usize, usize)>> {
    if !fs::exists(rt, folder)? {
        return Ok(None);
    }
    let mut count = 0usize;
    for entry in fs::read_dir(rt, folder)? {
        if entry?.file_name().starts_with('.') {
            count = count.saturating_add(1);
        }
    }
    let begun = fs::read_dir(rt, format!(in alloc; "{folder}/.new")?.as_str())?.count();
    Ok(Some((count, begun)))
}
