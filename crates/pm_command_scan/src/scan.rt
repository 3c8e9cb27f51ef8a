//! The command `scan`: print a table at a snapshot.

ghost use Rattle.std.specs.Result.{result_err};
ghost use Rattle.pm_io.specs.Sink.{SinkLater};
ghost use Rattle.pm_machine.specs.Trace.{HasTrace};
ghost use Rattle.pm_scan.specs.AllCalls.{text_in};
ghost use Rattle.pm_store.specs.Store.{IsLater};
ghost use Rattle.pm_command_scan.specs.Scan.{DidScan, IsScanned, KeepsHistories, MadeBeside};

use pm_command::print;
use pm_engines::declared_law;
use pm_io::Sink;
use pm_read_schema::read_table_schema;
use pm_scan::scan_table;
use pm_store::FileStore;
use pm_values::Refusal;
use std::alloc::Global;

/// Prints the scan of a table at its newest snapshot, or at the one with that id.
pub fn run_scan<W: Sink, F: FileStore>(
    alloc: Global,
    snapshot: Option<u64>,
    out: &mut W,
    store: &mut F,
) -> Result<(), Refusal>
    ensures scanned { IsScanned snapshot (W.seen out.old) (W.seen out.new) (F.seen store.old) (F.seen store.new)
        (result_err result) }
    ensures out_later { SinkLater (W.seen out.old) (W.seen out.new) }
    ensures store_later { IsLater (F.seen store.old) (F.seen store.new) }
{
    let text = read_scan(alloc, snapshot, store)?;
    print(out, &text, None)
}

/// The text of the scan of a table.
fn read_scan<F: FileStore>(
    alloc: Global,
    snapshot: Option<u64>,
    store: &mut F,
) -> Result<Vec<u8>, Refusal>
    ensures trace { HasTrace (DidScan snapshot (text_in result)) (F.seen store.old) (F.seen store.new) }
    ensures beside { MadeBeside snapshot (text_in result) (F.seen store.old) (F.seen store.new) }
    ensures history { KeepsHistories snapshot (F.seen store.old) (F.seen store.new) (text_in result) }
    ensures later { IsLater (F.seen store.old) (F.seen store.new) }
{
    let schema = read_table_schema(alloc, store)?;
    declared_law();
    scan_table(alloc, schema, snapshot, store)
}
