//! One command, as `run` executes it: with an input in memory, and a sink in memory.

ghost use Rattle.std.specs.Prelude.{◌≡◌, [], None, false};
ghost use Rattle.std.specs.Result.{result_err};
ghost use Rattle.pm_store.specs.Store.{IsLater};
ghost use Rattle.pm_words.specs.declared.command.Command.TheVariants as commands;
ghost use Rattle.pm_command_generate.specs.Generate.{IsRun};

use pm_command::Start;
use pm_command_compact::run_compact;
use pm_command_create::run_create;
use pm_command_scan::run_scan;
use pm_command_write::{Writer, run_write};
use pm_io::{MemSink, MemSource};
use pm_store::FileStore;
use pm_values::Refusal;
use std::alloc::Global;

/// Makes the table of a draft.
pub(crate) fn inner_create<F: FileStore>(
    alloc: Global,
    draft: Vec<u8>,
    out: &mut MemSink,
    store: &mut F,
    own: &Start,
) -> Result<(), Refusal>
    requires { out.old.taken ≡ [] }
    ensures run { IsRun own.now (commands.Create, draft.items) (F.seen store.old) (F.seen store.new) out.new.taken
        (result_err result) }
    ensures later { IsLater (F.seen store.old) (F.seen store.new) }
{
    let mut input = MemSource::new(draft, Vec::new(alloc));
    run_create(alloc, &mut input, out, store, own)
}

/// Commits the rows of lines.
pub(crate) fn inner_write<F: FileStore>(
    alloc: Global,
    lines: Vec<u8>,
    out: &mut MemSink,
    store: &mut F,
    own: &Start,
) -> Result<(), Refusal>
    requires { out.old.taken ≡ [] }
    ensures run { IsRun own.now (commands.Write None None, lines.items) (F.seen store.old) (F.seen store.new)
        out.new.taken (result_err result) }
    ensures later { IsLater (F.seen store.old) (F.seen store.new) }
{
    let mut input = MemSource::new(lines, Vec::new(alloc));
    let writer = Writer {
        user: None,
        identifier: None,
    };
    run_write(alloc, writer, &mut input, out, store, own)
}

/// Compacts the table.
pub(crate) fn inner_compact<F: FileStore>(
    alloc: Global,
    out: &mut MemSink,
    store: &mut F,
    own: &Start,
) -> Result<(), Refusal>
    requires { out.old.taken ≡ [] }
    ensures run { IsRun own.now (commands.Compact false, []) (F.seen store.old) (F.seen store.new) out.new.taken
        (result_err result) }
    ensures later { IsLater (F.seen store.old) (F.seen store.new) }
{
    run_compact(alloc, false, out, store, own)
}

/// Scans the table.
pub(crate) fn inner_scan<F: FileStore>(
    alloc: Global,
    out: &mut MemSink,
    store: &mut F,
    own: &Start,
) -> Result<(), Refusal>
    requires { out.old.taken ≡ [] }
    ensures run { IsRun own.now (commands.Scan None, []) (F.seen store.old) (F.seen store.new) out.new.taken
        (result_err result) }
    ensures later { IsLater (F.seen store.old) (F.seen store.new) }
{
    run_scan(alloc, None, out, store)
}
