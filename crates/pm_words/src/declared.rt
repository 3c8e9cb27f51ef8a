//! The options of each command, with what help says of them.

ghost use Rattle.std.specs.Prelude.{◌≡◌, [], IfOk, codes};
ghost use Rattle.clap.specs.Words.{app_of};
ghost use Rattle.pm_words.specs.Clap.{app_for, compact_options, consumers_options, expire_options, follow_options};
ghost use Rattle.pm_words.specs.Clap.{generate_options};
ghost use Rattle.pm_words.specs.Clap.{scan_options, write_options};

use crate::options::{with_flag, with_value, without_options};
use clap::Command;
use std::alloc::{AllocError, Global};

/// The command `compact` and its options.
pub(crate) fn compact_words<'a>(alloc: Global) -> Result<Command<'a>, AllocError>
    ensures { IfOk result (λ command. app_of command ≡ app_for (codes "compact") compact_options) }
{
    let command = without_options(alloc, "compact", "Merges data files where many came");
    with_flag(alloc, command, "full", "Merges all that there are")
}

/// The command `consumers` and its options.
pub(crate) fn consumers_words<'a>(alloc: Global) -> Result<Command<'a>, AllocError>
    ensures { IfOk result (λ command. app_of command ≡ app_for (codes "consumers") consumers_options) }
{
    let command = without_options(
        alloc,
        "consumers",
        "Lists who follows the table under a name, and the snapshot that each reads next",
    );
    with_value(
        alloc,
        command,
        "drop",
        "NAME",
        "Drops the one of this name instead",
    )
}

/// The command `create`.
pub(crate) fn create_words<'a>(alloc: Global) -> Command<'a>
    ensures { app_of result ≡ app_for (codes "create") [] }
{
    without_options(
        alloc,
        "create",
        "Makes a table of the draft on standard input, a JSON object on one line",
    )
}

/// The command `expire` and its options.
pub(crate) fn expire_words<'a>(alloc: Global) -> Result<Command<'a>, AllocError>
    ensures { IfOk result (λ command. app_of command ≡ app_for (codes "expire") expire_options) }
{
    let about = "Removes the oldest snapshots, and the files that they alone need";
    let command = without_options(alloc, "expire", about);
    let command = with_value(
        alloc,
        command,
        "min",
        "NUMBER",
        "Keeps at least so many of the latest; else as many as the table's options say",
    )?;
    let command = with_value(
        alloc,
        command,
        "max",
        "NUMBER",
        "Keeps at most so many, and all from the one on that a consumer reads next",
    )?;
    with_value(
        alloc,
        command,
        "millis",
        "NUMBER",
        "Of those between, keeps all from the first on that isn't older than so many milliseconds",
    )
}

/// The command `follow` and its options.
pub(crate) fn follow_words<'a>(alloc: Global) -> Result<Command<'a>, AllocError>
    ensures { IfOk result (λ command. app_of command ≡ app_for (codes "follow") follow_options) }
{
    let command = without_options(alloc, "follow", "Prints how commits change the table");
    let command = with_value(
        alloc,
        command,
        "from",
        "NUMBER",
        "From this snapshot on; else from the one that comes next, which isn't there yet",
    )?;
    let command = with_value(
        alloc,
        command,
        "consumer",
        "NAME",
        "From where this consumer is, which is moved past each frame; a new one begins as above",
    )?;
    with_flag(
        alloc,
        command,
        "full",
        "Prints the table first, as it was before",
    )
}

/// The command `generate` and its options.
pub(crate) fn generate_words<'a>(alloc: Global) -> Result<Command<'a>, AllocError>
    ensures { IfOk result (λ command. app_of command ≡ app_for (codes "generate") generate_options) }
{
    let about = "Makes a table and commits batches of rows to it that are drawn from a seed";
    let command = without_options(alloc, "generate", about);
    let command = with_value(
        alloc,
        command,
        "batches",
        "NUMBER",
        "How many batches, at most 1000",
    )?;
    let command = with_value(
        alloc,
        command,
        "rows",
        "NUMBER",
        "How many rows each has, from 1 to 10000",
    )?;
    with_value(
        alloc,
        command,
        "seed",
        "NUMBER",
        "What they are drawn from: the same seed gives the same rows",
    )
}

/// The command `scan` and its options.
pub(crate) fn scan_words<'a>(alloc: Global) -> Result<Command<'a>, AllocError>
    ensures { IfOk result (λ command. app_of command ≡ app_for (codes "scan") scan_options) }
{
    let command = without_options(alloc, "scan", "Prints the table at its newest snapshot");
    with_value(
        alloc,
        command,
        "snapshot",
        "NUMBER",
        "Prints it at this snapshot",
    )
}

/// The command `snapshots`.
pub(crate) fn snapshots_words<'a>(alloc: Global) -> Command<'a>
    ensures { app_of result ≡ app_for (codes "snapshots") [] }
{
    without_options(alloc, "snapshots", "Lists the table's commits")
}

/// The command `write` and its options.
pub(crate) fn write_words<'a>(alloc: Global) -> Result<Command<'a>, AllocError>
    ensures { IfOk result (λ command. app_of command ≡ app_for (codes "write") write_options) }
{
    let command = without_options(
        alloc,
        "write",
        "Commits the rows of standard input, one JSON array a line",
    );
    let command = with_value(
        alloc,
        command,
        "user",
        "NAME",
        "Who writes: with --ident, a command that is repeated commits once",
    )?;
    with_value(
        alloc,
        command,
        "ident",
        "NUMBER",
        "The number of this user's commit; numbers rise",
    )
}
