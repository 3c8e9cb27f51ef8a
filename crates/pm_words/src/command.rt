//! The commands.

ghost use Rattle.std.specs.Prelude.{◌≡◌, IfOk, IfSome, IfNone, codes, map, true};
ghost use Rattle.std.specs.List.{list_all};
ghost use Rattle.pm_values.specs.declared.refusal.Refusal.TheVariants as refusals;
ghost use Rattle.pm_words.specs.Clap.{may_stand};
ghost use Rattle.pm_words.specs.Reading.{Finds, GiveAfter};
ghost use Rattle.pm_words.specs.Words.{Give, GiveNoCommand, first_word};

use crate::declared::{
    compact_words, consumers_words, create_words, expire_words, follow_words, generate_words,
    scan_words, snapshots_words, write_words,
};
use crate::options::{matches_in, texts_in};
use crate::values::{
    GREATEST_NUMBER, are_in_order, flag_given, name_given, number_between, number_given,
    retained_given,
};
use pm_values::{Refusal, Txt};
use std::alloc::{AllocError, Global};

/// What can be asked of a table.
#[derive(Drop)]
pub enum Command {
    /// To make it, of the draft in the input.
    Create,
    /// To commit the rows of the input: by which user and under which identifier, where others are meant than the
    /// default ones.
    Write {
        user: Option<Txt>,
        identifier: Option<u64>,
    },
    /// To print it, at the newest snapshot or at this one.
    Scan {
        snapshot: Option<u64>,
    },
    /// To list its snapshots.
    Snapshots,
    /// To list its consumers, or to drop the one of this name.
    Consumers {
        dropped: Option<Txt>,
    },
    /// To compact it, where the word says so in full.
    Compact {
        full: bool,
    },
    /// To remove its oldest snapshots: how many to keep at least and at most, and how many milliseconds old one may be,
    /// where others are meant than its options say.
    Expire {
        min: Option<u64>,
        max: Option<u64>,
        millis: Option<u64>,
    },
    /// To print how its snapshots change it, from this one on, which is at least 1, or from the one after the newest;
    /// and where it is asked for in full, before that the table that is passed on at the one below. Where a consumer is
    /// named, its file says where to go on once it is settled, and is moved past each frame that was printed.
    Follow {
        from: Option<u64>,
        consumer: Option<Txt>,
        full: bool,
    },
    /// To make a table and fill it: with so many batches, of so many rows each, drawn from this seed.
    Generate {
        batches: u64,
        rows: u64,
        seed: u64,
    },
}

/// The most batches that can be drawn.
const MOST_BATCHES: u64 = 1000;

/// The most rows of each.
const MOST_BATCH_ROWS: u64 = 10000;

/// The command that the words give, if they give one.
pub fn command_in(alloc: Global, words: &[Txt]) -> Result<Option<Command>, AllocError>
    ensures some { IfOk result (λ found. IfSome found (Give words.now)) }
    ensures none { IfOk result (λ found. IfNone found (GiveNoCommand words.now)) }
{
    let Some((word, later)) = words.split_first() else {
        return Ok(None);
    };
    match texts_in(alloc, later)? {
        Some(texts) => command_of(alloc, word.as_str(), texts.as_slice()),
        None => Ok(None),
    }
}

/// The command of the word with these words after it.
fn command_of<'a>(
    alloc: Global,
    word: &str,
    words: &'a [&'a str],
) -> Result<Option<Command>, AllocError>
    requires { list_all may_stand (map (λ word. word.now) words.now) ≡ true }
    ensures { IfOk result (Finds (GiveAfter word.now (map (λ word. word.now) words.entry.now))) }
{
    match word {
        "compact" => compact_of(alloc, words),
        "consumers" => consumers_of(alloc, words),
        "create" => create_of(alloc, words),
        "expire" => expire_of(alloc, words),
        "follow" => follow_of(alloc, words),
        "generate" => generate_of(alloc, words),
        "scan" => scan_of(alloc, words),
        "snapshots" => snapshots_of(alloc, words),
        "write" => write_of(alloc, words),
        _ => Ok(None),
    }
}

/// The command `compact` with these words after it.
fn compact_of<'a>(alloc: Global, words: &'a [&'a str]) -> Result<Option<Command>, AllocError>
    requires { list_all may_stand (map (λ word. word.now) words.now) ≡ true }
    ensures { IfOk result (Finds (GiveAfter (codes "compact") (map (λ word. word.now) words.entry.now))) }
{
    let Some(matches) = matches_in(compact_words(alloc)?, words)? else {
        return Ok(None);
    };
    let full = flag_given(&matches, "full");
    Ok(Some(Command::Compact { full }))
}

/// The command `consumers` with these words after it.
fn consumers_of<'a>(alloc: Global, words: &'a [&'a str]) -> Result<Option<Command>, AllocError>
    requires { list_all may_stand (map (λ word. word.now) words.now) ≡ true }
    ensures { IfOk result (Finds (GiveAfter (codes "consumers") (map (λ word. word.now) words.entry.now))) }
{
    let Some(matches) = matches_in(consumers_words(alloc)?, words)? else {
        return Ok(None);
    };
    let Some(dropped) = name_given(alloc, &matches, "drop")? else {
        return Ok(None);
    };
    Ok(Some(Command::Consumers { dropped }))
}

/// The command `create` with these words after it.
fn create_of<'a>(alloc: Global, words: &'a [&'a str]) -> Result<Option<Command>, AllocError>
    requires { list_all may_stand (map (λ word. word.now) words.now) ≡ true }
    ensures { IfOk result (Finds (GiveAfter (codes "create") (map (λ word. word.now) words.entry.now))) }
{
    let Some(_) = matches_in(create_words(alloc), words)? else {
        return Ok(None);
    };
    Ok(Some(Command::Create))
}

/// The command `expire` with these words after it.
fn expire_of<'a>(alloc: Global, words: &'a [&'a str]) -> Result<Option<Command>, AllocError>
    requires { list_all may_stand (map (λ word. word.now) words.now) ≡ true }
    ensures { IfOk result (Finds (GiveAfter (codes "expire") (map (λ word. word.now) words.entry.now))) }
{
    let Some(matches) = matches_in(expire_words(alloc)?, words)? else {
        return Ok(None);
    };
    let Some(min) = retained_given(&matches, "min") else {
        return Ok(None);
    };
    let Some(max) = retained_given(&matches, "max") else {
        return Ok(None);
    };
    if !are_in_order(min, max) {
        return Ok(None);
    }
    let Some(millis) = number_given(&matches, "millis") else {
        return Ok(None);
    };
    Ok(Some(Command::Expire { min, max, millis }))
}

/// The command `follow` with these words after it.
fn follow_of<'a>(alloc: Global, words: &'a [&'a str]) -> Result<Option<Command>, AllocError>
    requires { list_all may_stand (map (λ word. word.now) words.now) ≡ true }
    ensures { IfOk result (Finds (GiveAfter (codes "follow") (map (λ word. word.now) words.entry.now))) }
{
    let Some(matches) = matches_in(follow_words(alloc)?, words)? else {
        return Ok(None);
    };
    let Some(from) = number_given(&matches, "from") else {
        return Ok(None);
    };
    if let Some(0) = from {
        return Ok(None);
    }
    let full = flag_given(&matches, "full");
    let Some(consumer) = name_given(alloc, &matches, "consumer")? else {
        return Ok(None);
    };
    Ok(Some(Command::Follow {
        from,
        consumer,
        full,
    }))
}

/// The command `generate` with these words after it.
fn generate_of<'a>(alloc: Global, words: &'a [&'a str]) -> Result<Option<Command>, AllocError>
    requires { list_all may_stand (map (λ word. word.now) words.now) ≡ true }
    ensures { IfOk result (Finds (GiveAfter (codes "generate") (map (λ word. word.now) words.entry.now))) }
{
    let Some(matches) = matches_in(generate_words(alloc)?, words)? else {
        return Ok(None);
    };
    let Some(batches) = number_between(&matches, "batches", 0, MOST_BATCHES) else {
        return Ok(None);
    };
    let Some(rows) = number_between(&matches, "rows", 1, MOST_BATCH_ROWS) else {
        return Ok(None);
    };
    let Some(seed) = number_between(&matches, "seed", 0, GREATEST_NUMBER) else {
        return Ok(None);
    };
    Ok(Some(Command::Generate {
        batches,
        rows,
        seed,
    }))
}

/// The command `scan` with these words after it.
fn scan_of<'a>(alloc: Global, words: &'a [&'a str]) -> Result<Option<Command>, AllocError>
    requires { list_all may_stand (map (λ word. word.now) words.now) ≡ true }
    ensures { IfOk result (Finds (GiveAfter (codes "scan") (map (λ word. word.now) words.entry.now))) }
{
    let Some(matches) = matches_in(scan_words(alloc)?, words)? else {
        return Ok(None);
    };
    let Some(snapshot) = number_given(&matches, "snapshot") else {
        return Ok(None);
    };
    Ok(Some(Command::Scan { snapshot }))
}

/// The command `snapshots` with these words after it.
fn snapshots_of<'a>(alloc: Global, words: &'a [&'a str]) -> Result<Option<Command>, AllocError>
    requires { list_all may_stand (map (λ word. word.now) words.now) ≡ true }
    ensures { IfOk result (Finds (GiveAfter (codes "snapshots") (map (λ word. word.now) words.entry.now))) }
{
    let Some(_) = matches_in(snapshots_words(alloc), words)? else {
        return Ok(None);
    };
    Ok(Some(Command::Snapshots))
}

/// The command `write` with these words after it.
fn write_of<'a>(alloc: Global, words: &'a [&'a str]) -> Result<Option<Command>, AllocError>
    requires { list_all may_stand (map (λ word. word.now) words.now) ≡ true }
    ensures { IfOk result (Finds (GiveAfter (codes "write") (map (λ word. word.now) words.entry.now))) }
{
    let Some(matches) = matches_in(write_words(alloc)?, words)? else {
        return Ok(None);
    };
    let Some(user) = name_given(alloc, &matches, "user")? else {
        return Ok(None);
    };
    let Some(identifier) = number_given(&matches, "ident") else {
        return Ok(None);
    };
    Ok(Some(Command::Write { user, identifier }))
}

/// The refusal of words that give no command.
pub fn no_command(alloc: Global, words: &[Txt]) -> Result<Refusal, AllocError>
    ensures { IfOk result (λ e. e ≡ refusals.Words (first_word words.now)) }
{
    Ok(Refusal::Words {
        command: first_word(alloc, words)?,
    })
}

/// A copy of the first word, or nothing.
fn first_word(alloc: Global, words: &[Txt]) -> Result<Txt, AllocError>
    ensures { IfOk result (λ word. word ≡ first_word words.now) }
{
    match words.first() {
        Some(word) => word.copy(alloc),
        None => Txt::from_str(alloc, ""),
    }
}
