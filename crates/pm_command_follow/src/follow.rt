//! The command `follow`, from its schema to its last frame.

ghost use Rattle.std.specs.Prelude.{ℕ, ◌≡◌, ◌≤◌, ◌<◌, Bool, List, Option, None, Some, suc, true};
ghost use Rattle.std.specs.Prelude.{IfErr, IfOk, IfSome};
ghost use Rattle.std.specs.Result.{result_err};
ghost use Rattle.pm_io.specs.Sink.{SinkLater, SinkView};
ghost use Rattle.pm_machine.specs.Trace.{HasTrace};
ghost use Rattle.pm_schema.specs.Again.{IsDeclared};
ghost use Rattle.pm_snapshot.specs.Names.{greatest};
ghost use Rattle.pm_store.specs.Store.{StoreView, IsLater};
ghost use Rattle.pm_values.specs.declared.refusal.Refusal.TheVariants as refusals;
ghost use Rattle.pm_command_follow.specs.Follow.{DidSchema, FollowsAny, FollowsBeside, HasEnded, HasSchema};
ghost use Rattle.pm_command_follow.specs.Follow.{IsFollowed, LearnsWhy, Opens, Starts, Took};
ghost use Rattle.pm_command_follow.specs.Pieces.{HasBegun, LearnsBelow, LearnsTable};
ghost use Rattle.pm_command_follow.specs.Printed.{start_of};

use crate::laws::{follow_law, pieces_law};
use crate::pieces::{print_frames, print_table};
use pm_io::Sink;
use pm_model_folder::past_law;
use pm_options::Producer;
use pm_read_latest::read_latest;
use pm_read_schema::read_table_schema;
use pm_schema::TableSchema;
use pm_store::FileStore;
use pm_values::Refusal;
use std::alloc::Global;

/// Prints how the snapshots of a table change it, from the one with that id on, or after the newest; and before that,
/// where it is asked for in full, the table that is passed on at the one below. Whatever others do meanwhile, this is a
/// prefix of what is printed of the history. Refuses with `NoTable`; `NoChangelog`, before any call after the schema's,
/// where the table has no producer; `NoSnapshot` for a start above the newest and one; `Expired` for a
/// snapshot that has gone; `StoreFault`; `SinkFault`; or out of memory. Whatever others do, what a refusal tells is so
/// at the call that shows it. Where the files are damaged it passes on what their readers refuse.
pub fn run_follow<W: Sink, F: FileStore>(
    alloc: Global,
    from: Option<u64>,
    full: bool,
    out: &mut W,
    store: &mut F,
) -> Result<(), Refusal>
    requires { IfSome from (λ id. 1 ≤ id) }
    ensures followed { IsFollowed from full (W.seen out.old) (W.seen out.new) (F.seen store.old) (F.seen store.new)
        (result_err result) }
    ensures history { FollowsAny from full (W.seen out.old) (W.seen out.new) (F.seen store.old) (F.seen store.new)
        (result_err result) }
    ensures out_later { SinkLater (W.seen out.old) (W.seen out.new) }
    ensures store_later { IsLater (F.seen store.old) (F.seen store.new) }
{
    follow_law();
    let schema = followed_schema(alloc, store)?;
    follow_table(alloc, &schema, from, full, out, store)
}

/// The schema of a table that tells its changes. Refuses with `NoTable`; `NoChangelog` where it has no producer;
/// `StoreFault`; or out of memory, and with what reading the schema refuses.
pub fn followed_schema<F: FileStore>(alloc: Global, store: &mut F) -> Result<TableSchema, Refusal>
    ensures trace { HasTrace (DidSchema result) (F.seen store.old) (F.seen store.new) }
    ensures beside { IfOk result (λ s. LearnsTable s (F.seen store.old) (F.seen store.new)) }
    ensures refused { (from : Option ℕ) → IfErr result (λ e. LearnsWhy from e (F.seen store.old) (F.seen store.new)) }
    ensures declared { IfOk result IsDeclared }
    ensures later { IsLater (F.seen store.old) (F.seen store.new) }
{
    let schema = read_table_schema(alloc, store)?;
    if let Producer::None = schema.options.producer {
        return Err(Refusal::NoChangelog);
    }
    Ok(schema)
}

/// Follows the table of this schema, whose reading came right before.
fn follow_table<W: Sink, F: FileStore>(
    alloc: Global,
    schema: &TableSchema,
    from: Option<u64>,
    full: bool,
    out: &mut W,
    store: &mut F,
) -> Result<(), Refusal>
    requires declared { IsDeclared schema.now }
    requires from { IfSome from (λ id. 1 ≤ id) }
    ensures followed { (first : StoreView) → HasTrace (HasSchema schema.now) first (F.seen store.old)
        → HasEnded from full (W.seen out.old) (W.seen out.new) first (F.seen store.new) (result_err result) }
    ensures beside { (first : StoreView) → HasTrace (HasSchema schema.now) first (F.seen store.old)
        → LearnsTable schema.now first (F.seen store.old)
        → FollowsBeside from full (W.seen out.old) (W.seen out.new) first (F.seen store.new) (result_err result) }
    ensures out_later { SinkLater (W.seen out.old) (W.seen out.new) }
    ensures store_later { IsLater (F.seen store.old) (F.seen store.new) }
{
    let latest = read_latest(alloc, store)?;
    let start = start_at(from, latest)?;
    follow_from(alloc, schema, start, full, out, store)
}

/// The snapshot of the first frame, where this one is the latest: the one that is asked for, or the one after it.
/// Refuses one that is above that with `NoSnapshot`.
pub fn start_at(from: Option<u64>, latest: u64) -> Result<u64, Refusal>
    requires from { IfSome from (λ id. 1 ≤ id) }
    requires latest { latest ≤ greatest }
    ensures start { IfOk result (λ start. (start ≡ start_of from latest) × (start ≤ suc latest) × (1 ≤ start)) }
    ensures above { IfErr result (λ e. (id : ℕ) × (from ≡ Some id) × (suc latest < id)
        × (e ≡ refusals.NoSnapshot id latest)) }
{
    let after = latest + 1;
    match from {
        Some(id) if id > after => Err(Refusal::NoSnapshot { id, latest }),
        Some(id) => Ok(id),
        None => Ok(after),
    }
}

/// Follows the table from this snapshot on.
fn follow_from<W: Sink, F: FileStore>(
    alloc: Global,
    schema: &TableSchema,
    start: u64,
    full: bool,
    out: &mut W,
    store: &mut F,
) -> Result<(), Refusal>
    requires declared { IsDeclared schema.now }
    requires start { 1 ≤ start }
    ensures followed { (from : Option ℕ) (first : StoreView)
        → HasTrace (Starts schema.now from start) first (F.seen store.old)
        → HasEnded from full (W.seen out.old) (W.seen out.new) first (F.seen store.new) (result_err result) }
    ensures beside { (from : Option ℕ) (first : StoreView)
        → HasTrace (Starts schema.now from start) first (F.seen store.old)
        → LearnsBelow schema.now start first (F.seen store.old)
        → FollowsBeside from full (W.seen out.old) (W.seen out.new) first (F.seen store.new) (result_err result) }
    ensures out_later { SinkLater (W.seen out.old) (W.seen out.new) }
    ensures store_later { IsLater (F.seen store.old) (F.seen store.new) }
{
    if full {
        return follow_with_table(alloc, schema, start, out, store);
    }
    follow_on(alloc, schema, start, out, store)
}

/// Prints the starting table, and goes on.
fn follow_with_table<W: Sink, F: FileStore>(
    alloc: Global,
    schema: &TableSchema,
    start: u64,
    out: &mut W,
    store: &mut F,
) -> Result<(), Refusal>
    requires declared { IsDeclared schema.now }
    requires start { 1 ≤ start }
    ensures followed { (from : Option ℕ) (first : StoreView)
        → HasTrace (Starts schema.now from start) first (F.seen store.old)
        → HasEnded from true (W.seen out.old) (W.seen out.new) first (F.seen store.new) (result_err result) }
    ensures beside { (from : Option ℕ) (first : StoreView)
        → HasTrace (Starts schema.now from start) first (F.seen store.old)
        → LearnsBelow schema.now start first (F.seen store.old)
        → FollowsBeside from true (W.seen out.old) (W.seen out.new) first (F.seen store.new) (result_err result) }
    ensures out_later { SinkLater (W.seen out.old) (W.seen out.new) }
    ensures store_later { IsLater (F.seen store.old) (F.seen store.new) }
{
    pieces_law();
    past_law();
    print_table(alloc, schema, start, out, store)?;
    follow_on(alloc, schema, start, out, store)
}

/// Lists the snapshots again, and prints the frames up to the latest.
fn follow_on<W: Sink, F: FileStore>(
    alloc: Global,
    schema: &TableSchema,
    start: u64,
    out: &mut W,
    store: &mut F,
) -> Result<(), Refusal>
    requires declared { IsDeclared schema.now }
    requires start { 1 ≤ start }
    ensures followed { (from : Option ℕ) (full : Bool) (text : List ℕ) (out_first : SinkView) (first : StoreView)
        → HasTrace (Opens schema.now from full start text) first (F.seen store.old)
        → Took full 0 text out_first (W.seen out.old)
        → HasEnded from full out_first (W.seen out.new) first (F.seen store.new) (result_err result) }
    ensures beside { (from : Option ℕ) (full : Bool) (text : List ℕ) (out_first : SinkView) (first : StoreView)
        → HasTrace (Opens schema.now from full start text) first (F.seen store.old)
        → HasBegun schema.now full start out_first (W.seen out.old) first (F.seen store.old)
        → FollowsBeside from full out_first (W.seen out.new) first (F.seen store.new) (result_err result) }
    ensures out_later { SinkLater (W.seen out.old) (W.seen out.new) }
    ensures store_later { IsLater (F.seen store.old) (F.seen store.new) }
{
    pieces_law();
    let latest = read_latest(alloc, store)?;
    print_frames(alloc, schema, start, latest, out, store)
}
