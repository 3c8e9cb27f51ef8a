//! The command `consumers`: list the consumers of a table.

ghost use Rattle.std.specs.Result.{result_err};
ghost use Rattle.pm_io.specs.Sink.{SinkLater};
ghost use Rattle.pm_machine.specs.Trace.{HasTrace};
ghost use Rattle.pm_store.specs.Store.{IsLater};
ghost use Rattle.pm_command_consumers.specs.Consumers.{DidConsumers, IsListed, KeepsHistories, MadeBeside};

use pm_command::print;
use pm_consumer_files::{NamedConsumer, print_consumers};
use pm_consumers::list_consumers;
use pm_io::Sink;
use pm_read_schema::read_table_schema;
use pm_store::FileStore;
use pm_values::Refusal;
use std::alloc::Global;

/// Lists the consumers of a table, and prints a line for each, by rising name. Whatever others do meanwhile, each line
/// is what the consumer's file said when it was read.
pub fn run_consumers<W: Sink, F: FileStore>(
    alloc: Global,
    out: &mut W,
    store: &mut F,
) -> Result<(), Refusal>
    ensures listed { IsListed (W.seen out.old) (W.seen out.new) (F.seen store.old) (F.seen store.new)
        (result_err result) }
    ensures out_later { SinkLater (W.seen out.old) (W.seen out.new) }
    ensures store_later { IsLater (F.seen store.old) (F.seen store.new) }
{
    let consumers = list_all(alloc, store)?;
    let text = print_consumers(alloc, consumers.as_slice())?;
    print(out, &text, None)
}

/// Lists the consumers of a table.
fn list_all<F: FileStore>(alloc: Global, store: &mut F) -> Result<Vec<NamedConsumer>, Refusal>
    ensures trace { HasTrace (DidConsumers result) (F.seen store.old) (F.seen store.new) }
    ensures beside { MadeBeside result (F.seen store.old) (F.seen store.new) }
    ensures history { KeepsHistories (F.seen store.old) (F.seen store.new) result }
    ensures later { IsLater (F.seen store.old) (F.seen store.new) }
{
    let schema = read_table_schema(alloc, store)?;
    list_consumers(alloc, store)
}
