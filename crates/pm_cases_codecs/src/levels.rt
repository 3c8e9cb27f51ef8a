//! Files made into runs.

use crate::file::{file_of, keys_of};
use pm_cases::{Case, say_between};
use pm_levels::{LevelFault, Levels};
use pm_values::{FileMeta, Txt};

/// The runs of files, the newest first, and their sizes; or the file that overlaps another.
pub fn answer(case: &mut Case, words: &str) {
    let mut files = Vec::new(case.alloc());
    for word in words.split_whitespace() {
        push_file(case, &mut files, word);
    }
    match Levels::of_files(case.alloc(), files) {
        Ok(levels) => say_levels(case, levels),
        Err(LevelFault::Overlap(file)) => say_overlap(case, file),
        Err(LevelFault::Memory) => case.run_out(),
    }
}

/// Adds the file of a word `NAME@LEVEL/LEAST-GREATEST/SEQUENCE/SIZE`.
fn push_file(case: &mut Case, files: &mut Vec<FileMeta>, word: &str) {
    let (name, text) = case.split_at(word, '@');
    let (level, text) = case.split_at(text, '/');
    let (range, text) = case.split_at(text, '/');
    let (seq, size) = case.split_at(text, '/');
    let (least, greatest) = case.split_at(range, '-');
    let least = case.signed(least);
    let greatest = case.signed(greatest);
    let level = case.small(level);
    let seq = case.number(seq);
    let size = case.number(size);
    let Some((least, greatest)) = case.made(keys_of(case.alloc(), least, greatest)) else {
        return;
    };
    match Txt::from_str(case.alloc(), name) {
        Ok(name) => {
            let mut file = file_of(name, size, least, greatest);
            file.level = level;
            file.max_seq = seq;
            case.push(files, file);
        }
        Err(_) => {
            drop(least);
            drop(greatest);
            case.run_out();
        }
    }
}

/// Says the file that overlaps another.
fn say_overlap(case: &mut Case, file: FileMeta) {
    case.say("overlap ");
    case.say(file.name.as_str());
    drop(file);
}

/// Says the level and the names of each run, and then the level and the size of each.
fn say_levels(case: &mut Case, levels: Levels) {
    say_runs(case, &levels);
    if case.is_silent() {
        case.say("nothing");
    } else {
        case.say("\t");
        say_sizes(case, &levels);
    }
    drop(levels);
}

/// Says the level and the names of each run.
fn say_runs(case: &mut Case, levels: &Levels) {
    let mut is_later = false;
    for run in levels.runs() {
        say_between(case, is_later, " ");
        case.say_made(format!(in case.alloc(); "{}:", run.level));
        say_names(case, &run.files);
        is_later = true;
    }
}

/// Says the names of files with commas between them.
fn say_names(case: &mut Case, files: &[FileMeta]) {
    let mut is_later = false;
    for file in files {
        say_between(case, is_later, ",");
        case.say(file.name.as_str());
        is_later = true;
    }
}

/// Says the level and the size of each run.
fn say_sizes(case: &mut Case, levels: &Levels) {
    let mut is_later = false;
    if let Some(sizes) = case.made(levels.sizes(case.alloc())) {
        for size in &sizes {
            say_between(case, is_later, " ");
            case.say_made(format!(in case.alloc(); "{}:{}", size.level, size.bytes));
            is_later = true;
        }
    }
}
