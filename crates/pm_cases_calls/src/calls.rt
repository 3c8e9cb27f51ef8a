//! The calls of a store as texts, and their answers.

use pm_base::{Blob, Txt};
use pm_cases::{Case, say_between};
use pm_store::{FileStore, Made, Published, Removed, StoreFail, Swapped};
use std::alloc::{AllocError, Global};

/// A text up to its first blank, and what follows that.
pub fn split_at_blank(text: &str) -> (&str, &str) {
    text.split_once(' ').unwrap_or((text, ""))
}

/// What a store answers to a call: its word, its paths, and its bytes, with blanks between them; `-` is no content.
pub fn said<F: FileStore>(alloc: Global, store: &mut F, call: &str) -> Result<String, AllocError> {
    let mut case = Case::new(alloc);
    say_call(&mut case, store, call);
    case.into_answer()
}

/// Says what a store answers to a call.
pub fn say_call<F: FileStore>(case: &mut Case, store: &mut F, call: &str) {
    let (word, rest) = split_at_blank(call);
    let (path, bytes) = split_at_blank(rest);
    match word {
        "list" => say_list(case, store, path),
        "read" => say_read(case, store, path),
        "create" => say_create(case, store, path, bytes),
        "publish" => say_publish(case, store, path, bytes),
        "swap" => say_swap(case, store, path, bytes),
        "remove" => say_remove(case, store, path),
        _ => case.reject(),
    }
}

/// Says which names a folder has.
fn say_list<F: FileStore>(case: &mut Case, store: &mut F, folder: &str) {
    match store.list(case.alloc(), folder) {
        Ok(names) => say_names(case, &names),
        Err(fail) => say_fail(case, fail),
    }
}

/// Says the bytes at a path.
fn say_read<F: FileStore>(case: &mut Case, store: &mut F, path: &str) {
    match store.read(case.alloc(), path) {
        Ok(content) => say_content(case, &content),
        Err(fail) => say_fail(case, fail),
    }
}

/// Says what a create answers.
fn say_create<F: FileStore>(case: &mut Case, store: &mut F, path: &str, bytes: &str) {
    match store.create(case.alloc(), path, bytes.as_bytes()) {
        Ok(Made::Created) => case.say("created"),
        Ok(Made::Exists) => case.say("exists"),
        Err(fail) => say_fail(case, fail),
    }
}

/// Says what a publish answers; its path and its bytes stand in one text.
fn say_publish<F: FileStore>(case: &mut Case, store: &mut F, after: &str, rest: &str) {
    let (path, bytes) = split_at_blank(rest);
    match store.publish(case.alloc(), after, path, bytes.as_bytes()) {
        Ok(Published::Created) => case.say("created"),
        Ok(Published::Exists) => case.say("exists"),
        Ok(Published::AfterGone) => case.say("after gone"),
        Err(fail) => say_fail(case, fail),
    }
}

/// Says what a swap answers; what is expected and the bytes stand in one text.
fn say_swap<F: FileStore>(case: &mut Case, store: &mut F, path: &str, rest: &str) {
    let (expected, bytes) = split_at_blank(rest);
    let expected = match expected {
        "-" => None,
        _ => Some(expected.as_bytes()),
    };
    match store.swap(case.alloc(), path, expected, bytes.as_bytes()) {
        Ok(Swapped::Swapped) => case.say("swapped"),
        Ok(Swapped::Differs(content)) => {
            case.say("differs ");
            say_content(case, &content);
        }
        Err(fail) => say_fail(case, fail),
    }
}

/// Says what a remove answers.
fn say_remove<F: FileStore>(case: &mut Case, store: &mut F, path: &str) {
    match store.remove(case.alloc(), path) {
        Ok(Removed::Removed) => case.say("removed"),
        Ok(Removed::Absent) => case.say("absent"),
        Err(fail) => say_fail(case, fail),
    }
}

/// Says why there is no answer.
fn say_fail(case: &mut Case, fail: StoreFail) {
    case.say(match fail {
        StoreFail::Memory => "memory",
        StoreFail::Failed => "failed",
    });
}

/// Says a content in quotes, `-` for none.
pub fn say_content(case: &mut Case, content: &Option<Blob>) {
    match content {
        Some(bytes) => case.say_quoted_bytes(bytes.as_bytes()),
        None => case.say("-"),
    }
}

/// Says names in brackets.
fn say_names(case: &mut Case, names: &[Txt]) {
    let mut is_later = false;
    case.say("[");
    for name in names {
        say_between(case, is_later, " ");
        case.say(name.as_str());
        is_later = true;
    }
    case.say("]");
}
