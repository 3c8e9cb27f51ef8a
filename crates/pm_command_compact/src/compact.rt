//! The command `compact`: merge a table's data files, so that it has fewer.

ghost use Rattle.std.specs.Prelude.{None, Ok};
ghost use Rattle.std.specs.Result.{result_err};
ghost use Rattle.pm_io.specs.Sink.{SinkLater};
ghost use Rattle.pm_machine.specs.Trace.{HasTrace};
ghost use Rattle.pm_store.specs.Store.{IsLater};
ghost use Rattle.pm_command.specs.Outside.{Prints};
ghost use Rattle.pm_command_compact.specs.Compact.{DidCompact, IsCompacted, KeepsHistories, snapshot_of, text_of};

use pm_command::{Start, own_names, own_user, print, print_snapshot};
use pm_compactor::{Compacted, compact_table};
use pm_engines::declared_law;
use pm_io::Sink;
use pm_read_schema::read_table_schema;
use pm_store::FileStore;
use pm_values::Refusal;
use std::alloc::Global;

/// Compacts the table, in full by the word or not, and says which snapshot it committed, or that there was nothing to
/// do.
pub fn run_compact<W: Sink, F: FileStore>(
    alloc: Global,
    full: bool,
    out: &mut W,
    store: &mut F,
    start: &Start,
) -> Result<(), Refusal>
    ensures compacted { IsCompacted start.now full (W.seen out.old) (W.seen out.new) (F.seen store.old)
        (F.seen store.new) (result_err result) }
    ensures out_later { SinkLater (W.seen out.old) (W.seen out.new) }
    ensures store_later { IsLater (F.seen store.old) (F.seen store.new) }
{
    let compacted = compact_declared(alloc, full, store, start)?;
    print_compacted(out, compacted)
}

/// Compacts the table, once its schema was read.
fn compact_declared<F: FileStore>(
    alloc: Global,
    full: bool,
    store: &mut F,
    start: &Start,
) -> Result<Compacted, Refusal>
    ensures trace { HasTrace (DidCompact start.now full result) (F.seen store.old) (F.seen store.new) }
    ensures history { KeepsHistories start.now full (F.seen store.old) (F.seen store.new) result }
    ensures later { IsLater (F.seen store.old) (F.seen store.new) }
{
    let schema = read_table_schema(alloc, store)?;
    declared_law();
    let user = own_user(alloc, start)?;
    let names = own_names(start);
    compact_table(alloc, schema, full, user, names, start.now_millis, store)
}

/// Says what became of the table. It takes no memory.
fn print_compacted<W: Sink>(out: &mut W, compacted: Compacted) -> Result<(), Refusal>
    ensures prints { Prints (text_of (Ok compacted)) (snapshot_of (Ok compacted)) None (W.seen out.old)
        (W.seen out.new) (result_err result) }
    ensures later { SinkLater (W.seen out.old) (W.seen out.new) }
{
    match compacted {
        Compacted::Nothing => print(out, b"nothing to compact\n", None),
        Compacted::Committed(id) => print_snapshot(out, id),
    }
}
