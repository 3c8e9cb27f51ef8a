//! What is said of all commands, and of each, to whom asks for help.

use crate::declared::{
    compact_words, consumers_words, create_words, expire_words, follow_words, generate_words,
    scan_words, snapshots_words, write_words,
};
use clap::Command;
use std::alloc::{AllocError, Global};

/// How a command is asked for.
const USAGE: &str = "./paimon FOLDER COMMAND [--OPTION [VALUE]]";

/// What is said after all commands.
const NOTES: &str =
    "FOLDER is the table's folder; create makes it. ./paimon FOLDER COMMAND --help says more of one.
Example: ./paimon my_table create < examples/table.json
A column's type is BOOLEAN, TINYINT, SMALLINT, INT, BIGINT, STRING, BYTES, DATE or TIMESTAMP(3). docs/FORMATS.md says
how values are written, and of each refusal what to do: E6 line 1 json comes of a draft on several lines, which
jq -c . joins, E9 no table of a folder that is misspelt, E22 of a rule for tables.
The first call proves the program and builds it. It says how far it is. README.md says how long that takes.";

/// What help says of all commands, and after it of each, behind a line of its name: the text of the very commands that
/// words are read with.
pub fn usage_text(alloc: Global) -> Result<String, AllocError> {
    let mut text = String::new(alloc);
    let mut all = all_commands(alloc)?;
    text.push_str(all.render_help()?.as_str())?;
    push_readers(alloc, &mut text)?;
    push_writers(alloc, &mut text)?;
    Ok(text)
}

/// All commands, below the program.
fn all_commands<'a>(alloc: Global) -> Result<Command<'a>, AllocError> {
    Command::new(alloc, "paimon")
        .override_usage(USAGE)
        .after_help(NOTES)
        .disable_help_flag(true)
        .disable_help_subcommand(true)
        .subcommand(create_words(alloc))?
        .subcommand(write_words(alloc)?)?
        .subcommand(scan_words(alloc)?)?
        .subcommand(follow_words(alloc)?)?
        .subcommand(snapshots_words(alloc))?
        .subcommand(consumers_words(alloc)?)?
        .subcommand(compact_words(alloc)?)?
        .subcommand(expire_words(alloc)?)?
        .subcommand(generate_words(alloc)?)
}

/// Adds what help says of the commands that change nothing.
fn push_readers(alloc: Global, text: &mut String) -> Result<(), AllocError> {
    text.push_str("\n## scan\n\n")?;
    let usage = "./paimon FOLDER scan [--snapshot NUMBER]";
    push_help(
        text,
        scan_words(alloc)?,
        usage,
        "Example: ./paimon my_table scan --snapshot 3",
    )?;
    text.push_str("\n## follow\n\n")?;
    let usage = "./paimon FOLDER follow [--from NUMBER] [--consumer NAME] [--full]";
    push_help(
        text,
        follow_words(alloc)?,
        usage,
        "Example: ./paimon my_table follow --from 1",
    )?;
    text.push_str("\n## snapshots\n\n")?;
    let usage = "./paimon FOLDER snapshots";
    push_help(
        text,
        snapshots_words(alloc),
        usage,
        "Example: ./paimon my_table snapshots",
    )?;
    text.push_str("\n## consumers\n\n")?;
    let usage = "./paimon FOLDER consumers [--drop NAME]";
    push_help(
        text,
        consumers_words(alloc)?,
        usage,
        "Example: ./paimon my_table consumers --drop me",
    )
}

/// Adds what help says of those that change a table.
fn push_writers(alloc: Global, text: &mut String) -> Result<(), AllocError> {
    text.push_str("\n## create\n\n")?;
    let usage = "./paimon FOLDER create";
    let example = "Example: ./paimon my_table create < examples/table.json";
    push_help(text, create_words(alloc), usage, example)?;
    text.push_str("\n## write\n\n")?;
    let usage = "./paimon FOLDER write [--user NAME] [--ident NUMBER]";
    let example = "Example: ./paimon my_table write --user me --ident 1 < examples/first.jsonl";
    push_help(text, write_words(alloc)?, usage, example)?;
    text.push_str("\n## compact\n\n")?;
    let usage = "./paimon FOLDER compact [--full]";
    push_help(
        text,
        compact_words(alloc)?,
        usage,
        "Example: ./paimon my_table compact --full",
    )?;
    text.push_str("\n## expire\n\n")?;
    let usage = "./paimon FOLDER expire [--min NUMBER] [--max NUMBER] [--millis NUMBER]";
    let example = "Example: ./paimon my_table expire --max 100";
    push_help(text, expire_words(alloc)?, usage, example)?;
    text.push_str("\n## generate\n\n")?;
    let usage = "./paimon FOLDER generate --batches NUMBER --rows NUMBER --seed NUMBER";
    let example = "Example: ./paimon my_run generate --batches 100 --rows 1000 --seed 7";
    push_help(text, generate_words(alloc)?, usage, example)
}

/// Adds what help says of one command, with how it is asked for and an example.
fn push_help<'a>(
    text: &mut String,
    command: Command<'a>,
    usage: &'a str,
    example: &'a str,
) -> Result<(), AllocError> {
    let mut command = command.override_usage(usage).after_help(example);
    text.push_str(command.render_help()?.as_str())
}
