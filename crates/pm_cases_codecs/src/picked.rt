//! The choice of a compaction.

use pm_cases::Case;
use pm_levels::{Asked, PickRule, RunSize, pick};

/// The choice among runs with these sizes, newest first.
pub fn answer(case: &mut Case, arguments: &str) {
    let (words, sizes) = case.split(arguments);
    let (word, numbers) = case.split_at(words, ' ');
    let asked = asked_in(case, word);
    let rule = rule_in(case, numbers);
    let mut runs = Vec::new(case.alloc());
    for size in sizes.split_whitespace() {
        let (level, bytes) = case.split_at(size, ':');
        let level = case.small(level);
        let bytes = case.number(bytes);
        case.push(&mut runs, RunSize { level, bytes });
    }
    match pick(runs.as_slice(), asked, &rule) {
        Some(pick) => case.say_made(format!(in case.alloc();
            "take {} out {}",
            pick.take, pick.out
        )),
        None => case.say("none"),
    }
}

/// What a word asks for.
fn asked_in(case: &mut Case, word: &str) -> Asked {
    match word {
        "full" => Asked::Full,
        "level-zero" => Asked::LevelZero,
        "no" => Asked::No,
        _ => {
            case.reject();
            Asked::No
        }
    }
}

/// The rule of a trigger, an amplification, a ratio and a number of levels.
fn rule_in(case: &mut Case, numbers: &str) -> PickRule {
    let (trigger, numbers) = case.split_at(numbers, ' ');
    let (amplification, numbers) = case.split_at(numbers, ' ');
    let (ratio, levels) = case.split_at(numbers, ' ');
    PickRule {
        trigger: case.small(trigger),
        amplification: case.small(amplification),
        ratio: case.small(ratio),
        levels: case.small(levels),
    }
}
