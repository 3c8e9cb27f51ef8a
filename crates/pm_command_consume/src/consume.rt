//! The command `follow` with a consumer, from its schema to its last frame.

ghost use Rattle.std.specs.Prelude.{ℕ, Bool, List};
ghost use Rattle.std.specs.Result.{result_err};
ghost use Rattle.pm_io.specs.Sink.{SinkLater, SinkView};
ghost use Rattle.pm_machine.specs.Trace.{HasTrace};
ghost use Rattle.pm_model_folder.specs.Changes.{Actor};
ghost use Rattle.pm_schema.specs.Again.{IsDeclared};
ghost use Rattle.pm_store.specs.Store.{IsLater, StoreView};
ghost use Rattle.pm_command_follow.specs.Follow.{HasSchema, Took};
ghost use Rattle.pm_command_follow.specs.Pieces.{LearnsTable};
ghost use Rattle.pm_command_consume.specs.Alone.{ConsumesAny};
ghost use Rattle.pm_command_consume.specs.Beside.{ConsumesBeside};
ghost use Rattle.pm_command_consume.specs.Consume.{HasConsumed, IsConsuming, Opens};
ghost use Rattle.pm_command_consume.specs.Pieces.{HasOpened, IsPlace};

use crate::consuming::Consuming;
use crate::frames::hand_out_frames;
use crate::laws::consume_law;
use crate::opening::open_place;
use crate::place::Place;
use pm_command_follow::{followed_schema, pieces_law};
use pm_io::Sink;
use pm_read_frame::frames_law;
use pm_read_latest::read_latest;
use pm_schema::TableSchema;
use pm_store::FileStore;
use pm_values::Refusal;
use std::alloc::Global;

/// Prints how the snapshots of a table change it, from the one on that the consumer reads next, and moves the consumer
/// past each once the sink took all of its frame. Where the consumer isn't settled it is registered first, at the
/// snapshot with the id that is asked for or after the newest; and where it is asked for in full the table is printed
/// that is passed on at the one below. Whatever others do meanwhile, this is a prefix of what is printed of the
/// history, and each move one past a frame that was printed. Refuses as `pm_command_follow`; and with `Damaged` where
/// the consumer's file doesn't read; `ConsumerMoved` where another touched it meanwhile; `BelowFloor` where a floor is
/// above the start, and then the consumer stays new.
pub fn run_consume<W: Sink, F: FileStore>(
    alloc: Global,
    consuming: &Consuming,
    out: &mut W,
    store: &mut F,
) -> Result<(), Refusal>
    requires { IsConsuming consuming.now }
    ensures consumed { HasConsumed consuming.now (W.seen out.old) (W.seen out.new) (F.seen store.old)
        (F.seen store.new) (result_err result) }
    ensures history { ConsumesAny consuming.now (W.seen out.old) (W.seen out.new) (F.seen store.old)
        (F.seen store.new) (result_err result) }
    ensures beside { (me : Actor) → ConsumesBeside me consuming.now (W.seen out.old) (W.seen out.new)
        (F.seen store.old) (F.seen store.new) (result_err result) }
    ensures out_later { SinkLater (W.seen out.old) (W.seen out.new) }
    ensures store_later { IsLater (F.seen store.old) (F.seen store.new) }
{
    consume_law();
    let schema = followed_schema(alloc, store)?;
    consume_table(alloc, &schema, consuming, out, store)
}

/// Follows the table of this schema, whose reading came right before.
fn consume_table<W: Sink, F: FileStore>(
    alloc: Global,
    schema: &TableSchema,
    consuming: &Consuming,
    out: &mut W,
    store: &mut F,
) -> Result<(), Refusal>
    requires declared { IsDeclared schema.now }
    requires asked { IsConsuming consuming.now }
    ensures consumed { (first : StoreView) → HasTrace (HasSchema schema.now) first (F.seen store.old)
        → HasConsumed consuming.now (W.seen out.old) (W.seen out.new) first (F.seen store.new) (result_err result) }
    ensures beside { (me : Actor) (first : StoreView) → HasTrace (HasSchema schema.now) first (F.seen store.old)
        → LearnsTable schema.now first (F.seen store.old) → ConsumesBeside me consuming.now (W.seen out.old)
        (W.seen out.new) first (F.seen store.new) (result_err result) }
    ensures out_later { SinkLater (W.seen out.old) (W.seen out.new) }
    ensures store_later { IsLater (F.seen store.old) (F.seen store.new) }
{
    let place = open_place(alloc, schema, consuming, out, store)?;
    consume_on(alloc, schema, consuming, place, out, store)
}

/// Lists the snapshots, and hands out the frames from the consumer's place to the latest.
fn consume_on<W: Sink, F: FileStore>(
    alloc: Global,
    schema: &TableSchema,
    consuming: &Consuming,
    place: Place,
    out: &mut W,
    store: &mut F,
) -> Result<(), Refusal>
    requires declared { IsDeclared schema.now }
    requires asked { IsConsuming consuming.now }
    requires place { IsPlace place }
    ensures consumed { (full : Bool) (text : List ℕ) (out_first : SinkView) (first : StoreView)
        → HasTrace (Opens schema.now consuming.now place full text) first (F.seen store.old)
        → Took full 0 text out_first (W.seen out.old)
        → HasConsumed consuming.now out_first (W.seen out.new) first (F.seen store.new) (result_err result) }
    ensures beside { (me : Actor) (full : Bool) (table text : List ℕ) (out_first : SinkView) (first : StoreView)
        → HasTrace (Opens schema.now consuming.now place full table) first (F.seen store.old)
        → HasOpened me schema.now consuming.now place full text out_first (W.seen out.old) first (F.seen store.old)
        → ConsumesBeside me consuming.now out_first (W.seen out.new) first (F.seen store.new) (result_err result) }
    ensures out_later { SinkLater (W.seen out.old) (W.seen out.new) }
    ensures store_later { IsLater (F.seen store.old) (F.seen store.new) }
{
    frames_law();
    pieces_law();
    let latest = read_latest(alloc, store)?;
    hand_out_frames(alloc, schema, consuming, place, latest, out, store)
}
