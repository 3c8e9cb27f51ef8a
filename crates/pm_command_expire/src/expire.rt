//! The command `expire`: remove a table's oldest snapshots, and what they alone need.

ghost use Rattle.std.specs.Prelude.{◌≤◌, IfSome, None, Ok};
ghost use Rattle.std.specs.Result.{result_err};
ghost use Rattle.pm_io.specs.Sink.{SinkLater};
ghost use Rattle.pm_machine.specs.Trace.{HasTrace};
ghost use Rattle.pm_store.specs.Store.{IsLater};
ghost use Rattle.pm_command.specs.Outside.{Prints};
ghost use Rattle.pm_command_expire.specs.Expire.{kept_text, DidExpire, IsTableExpired, KeepsHistories, MadeBeside};

use itoa::Buffer;
use pm_command::{Start, print};
use pm_expire::{Kept, all_calls_law, alone_causes_law, expire_table, image_law};
use pm_expire_end::{KeepAsked, asked_law};
use pm_io::{LineBuffer, Sink};
use pm_model_folder::{settled_law, unnamed_law};
use pm_read_expiry::Asking;
use pm_read_schema::read_table_schema;
use pm_store::FileStore;
use pm_values::Refusal;
use std::alloc::Global;

/// Removes a table's oldest snapshots, but for those that are asked to be kept, and what they alone need. It prints
/// which are kept, by the ids of the first and the last, both 0 where the table has none.
pub fn run_expire<W: Sink, F: FileStore>(
    alloc: Global,
    asked: KeepAsked,
    out: &mut W,
    store: &mut F,
    start: &Start,
) -> Result<(), Refusal>
    requires some { IfSome asked.min (λ min. 1 ≤ min) }
    ensures expired { IsTableExpired start.now asked (W.seen out.old) (W.seen out.new) (F.seen store.old)
        (F.seen store.new) (result_err result) }
    ensures out_later { SinkLater (W.seen out.old) (W.seen out.new) }
    ensures store_later { IsLater (F.seen store.old) (F.seen store.new) }
{
    let kept = read_expire(alloc, asked, store, start)?;
    print_kept(out, kept)
}

/// Reads the schema of a table, and expires it.
fn read_expire<F: FileStore>(
    alloc: Global,
    asked: KeepAsked,
    store: &mut F,
    start: &Start,
) -> Result<Kept, Refusal>
    requires some { IfSome asked.min (λ min. 1 ≤ min) }
    ensures trace { HasTrace (DidExpire start.now asked result) (F.seen store.old) (F.seen store.new) }
    ensures beside { MadeBeside result (F.seen store.old) (F.seen store.new) }
    ensures history { KeepsHistories start.now asked (F.seen store.old) (F.seen store.new) result }
    ensures later { IsLater (F.seen store.old) (F.seen store.new) }
{
    let schema = read_table_schema(alloc, store)?;
    all_calls_law();
    alone_causes_law();
    asked_law();
    image_law();
    settled_law();
    unnamed_law();
    let keep = asked.over(&schema.options);
    let asking = Asking {
        schema,
        keep,
        now: start.now_millis,
    };
    expire_table(alloc, asking, store)
}

/// Says which snapshots are kept, in one piece. It takes no memory.
fn print_kept<W: Sink>(out: &mut W, kept: Kept) -> Result<(), Refusal>
    ensures prints { Prints (kept_text kept) None None (W.seen out.old) (W.seen out.new) (result_err result) }
    ensures later { SinkLater (W.seen out.old) (W.seen out.new) }
{
    let mut first = Buffer::new();
    let mut last = Buffer::new();
    let mut text = LineBuffer::new();
    text.hold(b"kept ");
    text.hold(first.format(kept.first).as_bytes());
    text.hold(b" ");
    text.hold(last.format(kept.last).as_bytes());
    text.hold(b"\n");
    print(out, text.bytes(), None)
}
