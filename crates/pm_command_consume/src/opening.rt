//! How a following with a consumer opens.

ghost use Rattle.std.specs.Prelude.{◌≡◌, IfOk};
ghost use Rattle.pm_io.specs.Sink.{SinkLater};
ghost use Rattle.pm_machine.specs.Trace.{HasTrace};
ghost use Rattle.pm_model_folder.specs.Changes.{Actor};
ghost use Rattle.pm_register.specs.Registrar.{known_text, registering, IsRegistering, IsUnregistered};
ghost use Rattle.pm_schema.specs.Again.{IsDeclared};
ghost use Rattle.pm_store.specs.Store.{IsLater, StoreView};
ghost use Rattle.pm_command_follow.specs.Follow.{HasSchema};
ghost use Rattle.pm_command_follow.specs.Pieces.{LearnsTable};
ghost use Rattle.pm_command_consume.specs.Consume.{FindsUnsettled, IsConsuming};
ghost use Rattle.pm_command_consume.specs.Pieces.{DidJoin, IsPlace, JoinsBeside, Opened, OpenedBeside};

use crate::consuming::Consuming;
use crate::place::{Place, Standing, standing_of};
use pm_base::{Blob, Txt};
use pm_command_follow::{pieces_law, print_table, start_at};
use pm_io::Sink;
use pm_model_folder::past_law;
use pm_read_consumer::find_consumer;
use pm_read_latest::read_latest;
use pm_register::register;
use pm_schema::TableSchema;
use pm_snapshot::{Consumer, consumer_law, write_consumer};
use pm_store::FileStore;
use pm_values::Refusal;
use std::alloc::{AllocError, Global};

/// The place of the consumer: that of a settled one, of which nothing is asked; or, once another was registered and the
/// starting table was printed where it is asked for, the one that it has then. Its schema was read right before.
pub(crate) fn open_place<W: Sink, F: FileStore>(
    alloc: Global,
    schema: &TableSchema,
    consuming: &Consuming,
    out: &mut W,
    store: &mut F,
) -> Result<Place, Refusal>
    requires declared { IsDeclared schema.now }
    requires asked { IsConsuming consuming.now }
    ensures opened { (first : StoreView) → HasTrace (HasSchema schema.now) first (F.seen store.old)
        → Opened schema.now consuming.now first (W.seen out.old) (W.seen out.new) (F.seen store.new) result }
    ensures beside { (me : Actor) (first : StoreView) → HasTrace (HasSchema schema.now) first (F.seen store.old)
        → LearnsTable schema.now first (F.seen store.old) → OpenedBeside me schema.now consuming.now first
        (W.seen out.old) (W.seen out.new) (F.seen store.new) result }
    ensures place { IfOk result IsPlace }
    ensures out_later { SinkLater (W.seen out.old) (W.seen out.new) }
    ensures store_later { IsLater (F.seen store.old) (F.seen store.new) }
{
    consumer_law();
    let found = find_consumer(alloc, &consuming.name, store)?;
    match standing_of(found) {
        Standing::Settled { place } => Ok(place),
        Standing::Unsettled { found } => join(alloc, schema, consuming, found, out, store),
    }
}

/// Registers a consumer that isn't settled, of which this was found right before, and prints the starting table where
/// that is asked for.
fn join<W: Sink, F: FileStore>(
    alloc: Global,
    schema: &TableSchema,
    consuming: &Consuming,
    found: Option<Blob>,
    out: &mut W,
    store: &mut F,
) -> Result<Place, Refusal>
    requires declared { IsDeclared schema.now }
    requires asked { IsConsuming consuming.now }
    requires unregistered { IsUnregistered found }
    ensures opened { (first : StoreView)
        → HasTrace (FindsUnsettled schema.now consuming.now found) first (F.seen store.old)
        → Opened schema.now consuming.now first (W.seen out.old) (W.seen out.new) (F.seen store.new) result }
    ensures beside { (me : Actor) (first : StoreView)
        → HasTrace (FindsUnsettled schema.now consuming.now found) first (F.seen store.old)
        → LearnsTable schema.now first (F.seen store.old) → OpenedBeside me schema.now consuming.now first
        (W.seen out.old) (W.seen out.new) (F.seen store.new) result }
    ensures place { IfOk result IsPlace }
    ensures out_later { SinkLater (W.seen out.old) (W.seen out.new) }
    ensures store_later { IsLater (F.seen store.old) (F.seen store.new) }
{
    past_law();
    pieces_law();
    let latest = read_latest(alloc, store)?;
    let start = start_at(consuming.from, latest)?;
    let place = register_at(alloc, &consuming.name, found, start, store)?;
    if !consuming.full {
        return Ok(place);
    }
    print_table(alloc, schema, start, out, store)?;
    Ok(place)
}

/// Registers the consumer of a name, of which this was found, to read that snapshot next, and has its place then.
fn register_at<F: FileStore>(
    alloc: Global,
    name: &Txt,
    found: Option<Blob>,
    start: u64,
    store: &mut F,
) -> Result<Place, Refusal>
    requires { IsRegistering (registering name.now found start) }
    ensures trace { HasTrace (DidJoin (registering name.now found start) result) (F.seen store.old) (F.seen store.new) }
    ensures beside { (me : Actor) → JoinsBeside me (registering name.now found start) (F.seen store.old)
        (F.seen store.new) }
    ensures place { IfOk result IsPlace }
    ensures later { IsLater (F.seen store.old) (F.seen store.new) }
{
    consumer_law();
    past_law();
    let bytes = match known_bytes(alloc, start) {
        Ok(bytes) => bytes,
        Err(_) => return Err(Refusal::Memory),
    };
    register(alloc, name, found, start, store)?;
    Ok(Place { next: start, bytes })
}

/// The bytes of the file of a settled consumer that reads this snapshot next.
fn known_bytes(alloc: Global, next: u64) -> Result<Blob, AllocError>
    ensures { IfOk result (λ bytes. bytes ≡ known_text next) }
{
    let bytes = write_consumer(alloc, &Consumer { next, fresh: false })?;
    Ok(Blob::new(bytes))
}
