//! The frames of a following with a consumer, each handed out: printed, and then moved past.

ghost use Rattle.std.specs.Prelude.{◌≤◌, IfOk};
ghost use Rattle.std.specs.Result.{result_err};
ghost use Rattle.pm_io.specs.Sink.{SinkLater};
ghost use Rattle.pm_model_folder.specs.Changes.{Actor};
ghost use Rattle.pm_read_frame.specs.Meaning.{HasProducer};
ghost use Rattle.pm_schema.specs.Again.{IsDeclared};
ghost use Rattle.pm_snapshot.specs.Names.{greatest};
ghost use Rattle.pm_store.specs.Store.{IsLater};
ghost use Rattle.pm_command_consume.specs.Consume.{IsConsuming};
ghost use Rattle.pm_command_consume.specs.Pieces.{FramesBeside, HandsBeside, HandsFrames, HandsPiece, IsPlace};

use crate::consuming::Consuming;
use crate::place::Place;
use pm_command_follow::print_frame;
use pm_io::Sink;
use pm_move_consumer::move_consumer;
use pm_read_frame::frames_law;
use pm_schema::TableSchema;
use pm_snapshot::consumer_law;
use pm_store::FileStore;
use pm_values::Refusal;
use std::alloc::Global;

/// Hands out the frames from the consumer's place to the latest snapshot, none where it is above that.
pub(crate) fn hand_out_frames<W: Sink, F: FileStore>(
    alloc: Global,
    schema: &TableSchema,
    consuming: &Consuming,
    place: Place,
    latest: u64,
    out: &mut W,
    store: &mut F,
) -> Result<(), Refusal>
    requires declared { IsDeclared schema.now }
    requires asked { IsConsuming consuming.now }
    requires place { IsPlace place }
    requires latest { latest ≤ greatest }
    ensures hands { HandsFrames schema.now consuming.now place latest (W.seen out.old) (W.seen out.new)
        (F.seen store.old) (F.seen store.new) (result_err result) }
    ensures beside { (me : Actor) → HasProducer schema.now → FramesBeside me schema.now consuming.now place latest
        (W.seen out.old) (W.seen out.new) (F.seen store.old) (F.seen store.new) (result_err result) }
    ensures out_later { SinkLater (W.seen out.old) (W.seen out.new) }
    ensures store_later { IsLater (F.seen store.old) (F.seen store.new) }
{
    frames_law();
    let mut place = place;
    while place.next <= latest {
        place = hand_out(alloc, schema, consuming, place, out, store)?;
    }
    Ok(())
}

/// Prints the frame of the snapshot that the consumer reads next, and moves the consumer past it once the sink took all
/// of it. Where the sink fails no call comes any more.
fn hand_out<W: Sink, F: FileStore>(
    alloc: Global,
    schema: &TableSchema,
    consuming: &Consuming,
    place: Place,
    out: &mut W,
    store: &mut F,
) -> Result<Place, Refusal>
    requires declared { IsDeclared schema.now }
    requires asked { IsConsuming consuming.now }
    requires place { IsPlace place }
    requires within { place.next ≤ greatest }
    ensures hands { HandsPiece schema.now consuming.now place (W.seen out.old) (W.seen out.new) (F.seen store.old)
        (F.seen store.new) result }
    ensures beside { (me : Actor) → HasProducer schema.now → HandsBeside me schema.now consuming.now place
        (W.seen out.old) (W.seen out.new) (F.seen store.old) (F.seen store.new) result }
    ensures place { IfOk result IsPlace }
    ensures out_later { SinkLater (W.seen out.old) (W.seen out.new) }
    ensures store_later { IsLater (F.seen store.old) (F.seen store.new) }
{
    consumer_law();
    frames_law();
    let next = place.next;
    print_frame(alloc, schema, next, out, store)?;
    let bytes = move_consumer(alloc, &consuming.name, place.bytes, next, store)?;
    Ok(Place {
        next: next + 1,
        bytes,
    })
}
