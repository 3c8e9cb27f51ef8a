//! The live files that manifests leave, one after another.

use crate::file::file_of;
use indexmap::IndexMap;
use pm_cases::{Case, say_between};
use pm_manifest::{Entry, FileId, fold_entries};
use pm_values::{FileMeta, Group, Key, Row, Txt};
use std::alloc::Global;

/// The live files that manifests leave, in the map's order. Where one is refused, its refusal, and the files that are
/// live then. The path of a manifest is `manifest-` and its index.
pub fn answer(case: &mut Case, arguments: &str) {
    let mut live = IndexMap::new(case.alloc());
    let mut number = 0;
    for (index, words) in arguments.split(';').enumerate() {
        if !fold(case, &mut live, &mut number, index, words) {
            break;
        }
    }
    say_live(case, &live);
    drop(live);
}

/// Folds the entries that words spell into the live files. Where they are refused, it says so.
fn fold(
    case: &mut Case,
    live: &mut IndexMap<FileId, Entry>,
    number: &mut u64,
    index: usize,
    words: &str,
) -> bool {
    let entries = read_entries(case, words, number);
    let Some(path) = case.made(format!(in case.alloc(); "manifest-{index}")) else {
        drop(entries);
        return false;
    };
    match fold_entries(case.alloc(), live, path.as_str(), entries) {
        Ok(()) => true,
        Err(refusal) => {
            case.refuse(refusal);
            case.say("\t");
            false
        }
    }
}

/// The entries that words spell, which are numbered from the last number on.
fn read_entries(case: &mut Case, words: &str, number: &mut u64) -> Vec<Entry> {
    let mut entries = Vec::new(case.alloc());
    for word in words.split_whitespace() {
        *number = number.saturating_add(1);
        push_entry(case, &mut entries, word, *number);
    }
    entries
}

/// Adds the entry that a word spells, whose file's size is the number of the word.
fn push_entry(case: &mut Case, entries: &mut Vec<Entry>, word: &str, number: u64) {
    let (add, file) = match (word.strip_prefix('+'), word.strip_prefix('-')) {
        (Some(file), _) => (true, file),
        (None, Some(file)) => (false, file),
        (None, None) => return case.reject(),
    };
    let (name, rest) = case.split_at(file, '@');
    let (level, bucket) = case.split_at(rest, '/');
    let level = case.small(level);
    let bucket = case.small(bucket);
    match Txt::from_str(case.alloc(), name) {
        Ok(name) => {
            let file = file_at(case.alloc(), name, number, level);
            case.push(entries, entry_of(case.alloc(), add, bucket, file));
        }
        Err(_) => case.run_out(),
    }
}

/// A file of a size at a level, without keys.
fn file_at(alloc: Global, name: Txt, size: u64, level: u32) -> FileMeta {
    let (least, greatest) = (Key::new(Vec::new(alloc)), Key::new(Vec::new(alloc)));
    let mut file = file_of(name, size, least, greatest);
    file.level = level;
    file
}

/// An entry of a file.
pub fn entry_of(alloc: Global, add: bool, bucket: u32, file: FileMeta) -> Entry {
    Entry {
        add,
        group: Group {
            partition: Row::new(Vec::new(alloc)),
            bucket,
        },
        buckets: 1,
        file,
    }
}

/// Says the live files as words, each with the number of the entry that added it; or `nothing`.
fn say_live(case: &mut Case, live: &IndexMap<FileId, Entry>) {
    if live.is_empty() {
        return case.say("nothing");
    }
    let mut is_later = false;
    for (id, entry) in live {
        say_between(case, is_later, " ");
        case.say(id.name.as_str());
        let (level, bucket, number) = (id.level, id.group.bucket, entry.file.size);
        case.say_made(format!(in case.alloc(); "@{level}/{bucket}:{number}"));
        is_later = true;
    }
}
