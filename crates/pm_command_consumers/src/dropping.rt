//! The command `consumers --drop`: drop a consumer of a table.

ghost use Rattle.std.specs.Prelude.{◌≡◌};
ghost use Rattle.std.specs.Result.{result_err};
ghost use Rattle.pm_io.specs.Sink.{SinkLater};
ghost use Rattle.pm_machine.specs.Trace.{HasTrace};
ghost use Rattle.pm_model_folder.specs.Changes.{IsPlain};
ghost use Rattle.pm_store.specs.Store.{IsLater};
ghost use Rattle.pm_command_consumers.specs.Drop.{told_text, DidRemove, IsRemoved, KeepsHistories, MadeBeside};

use pm_base::Txt;
use pm_command::print;
use pm_io::Sink;
use pm_move_consumer::drop_consumer;
use pm_read_schema::read_table_schema;
use pm_store::FileStore;
use pm_values::Refusal;
use std::alloc::Global;

/// Drops the consumer of a name: takes its file away, and prints whether one was there. No other file changes.
pub fn run_drop<W: Sink, F: FileStore>(
    alloc: Global,
    name: &Txt,
    out: &mut W,
    store: &mut F,
) -> Result<(), Refusal>
    requires { IsPlain name.now }
    ensures removed { IsRemoved name.now (W.seen out.old) (W.seen out.new) (F.seen store.old) (F.seen store.new)
        (result_err result) }
    ensures out_later { SinkLater (W.seen out.old) (W.seen out.new) }
    ensures store_later { IsLater (F.seen store.old) (F.seen store.new) }
{
    let was_there = remove_file(alloc, name, store)?;
    print(out, told_text(was_there), None)
}

/// Takes the file of a consumer of a table away.
fn remove_file<F: FileStore>(alloc: Global, name: &Txt, store: &mut F) -> Result<bool, Refusal>
    requires { IsPlain name.now }
    ensures trace { HasTrace (DidRemove name.now result) (F.seen store.old) (F.seen store.new) }
    ensures beside { MadeBeside name.now result (F.seen store.old) (F.seen store.new) }
    ensures history { KeepsHistories name.now (F.seen store.old) (F.seen store.new) result }
    ensures later { IsLater (F.seen store.old) (F.seen store.new) }
{
    let schema = read_table_schema(alloc, store)?;
    drop_consumer(alloc, name, store)
}

/// What is told: whether a file was there.
fn told_text(was_there: bool) -> &'static [u8]
    ensures { result.now ≡ told_text was_there }
{
    if was_there {
        b"dropped\n"
    } else {
        b"no consumer\n"
    }
}
