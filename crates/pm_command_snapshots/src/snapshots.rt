//! The command `snapshots`: list the snapshots of a table.

ghost use Rattle.std.specs.Prelude.{IfOk};
ghost use Rattle.std.specs.Result.{result_err};
ghost use Rattle.pm_io.specs.Sink.{SinkLater};
ghost use Rattle.pm_machine.specs.Trace.{HasTrace};
ghost use Rattle.pm_snapshots.specs.Lister.{IsDone};
ghost use Rattle.pm_store.specs.Store.{IsLater};
ghost use Rattle.pm_command_snapshots.specs.Snapshots.{made_of, DidSnapshots, IsListed, KeepsHistories, MadeBeside};

use pm_command::print;
use pm_io::Sink;
use pm_read_schema::read_table_schema;
use pm_snapshots::{Lister, list_snapshots, list_text};
use pm_store::FileStore;
use pm_values::Refusal;
use std::alloc::Global;

/// Lists the snapshots of a table, and prints a line for each. Whatever others do meanwhile, each line is that of the
/// table's snapshot as it stood when it was committed.
pub fn run_snapshots<W: Sink, F: FileStore>(
    alloc: Global,
    out: &mut W,
    store: &mut F,
) -> Result<(), Refusal>
    ensures listed { IsListed (W.seen out.old) (W.seen out.new) (F.seen store.old) (F.seen store.new)
        (result_err result) }
    ensures out_later { SinkLater (W.seen out.old) (W.seen out.new) }
    ensures store_later { IsLater (F.seen store.old) (F.seen store.new) }
{
    let lister = list_all(alloc, store)?;
    let text = list_text(alloc, &lister)?;
    print(out, &text, None)
}

/// Lists the snapshots of a table.
fn list_all<F: FileStore>(alloc: Global, store: &mut F) -> Result<Lister, Refusal>
    ensures done { IfOk result IsDone }
    ensures trace { HasTrace (DidSnapshots (made_of result)) (F.seen store.old) (F.seen store.new) }
    ensures beside { MadeBeside (made_of result) (F.seen store.old) (F.seen store.new) }
    ensures history { KeepsHistories (F.seen store.old) (F.seen store.new) (made_of result) }
    ensures later { IsLater (F.seen store.old) (F.seen store.new) }
{
    let schema = read_table_schema(alloc, store)?;
    list_snapshots(alloc, schema, store)
}
