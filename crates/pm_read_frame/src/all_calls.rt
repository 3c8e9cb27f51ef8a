//! All calls of a reader of a frame, one after another.

ghost use Rattle.std.specs.Prelude.{◌≤◌, ◌<◌, IfErr, IfOk};
ghost use Rattle.pm_machine.specs.Trace.{HasTrace};
ghost use Rattle.pm_model_folder.specs.Ledger.{count_of};
ghost use Rattle.pm_model_history.specs.History.{IsTableOf};
ghost use Rattle.pm_schema.specs.Again.{IsDeclared};
ghost use Rattle.pm_snapshot.specs.Names.{greatest};
ghost use Rattle.pm_store.specs.Store.{StoreView, IsLater};
ghost use Rattle.pm_read_log.specs.Log.{LogAskedView};
ghost use Rattle.pm_read_schema.specs.Beside.{IsTold, Learns};
ghost use Rattle.pm_read_frame.specs.AllCalls.{DidFrame, Ends, ReadsFrames, text_in};
ghost use Rattle.pm_read_frame.specs.Meaning.{IsFrame, Knows};
ghost use Rattle.pm_read_frame.specs.Reader.{calls_left};
ghost use Rattle.pm_read_frame.specs.Trace.{Did};

use crate::laws::all_calls_law;
use crate::reader::{FrameReader, frame_at, into_text, is_frame_ready};
use pm_machine::take_step;
use pm_model_folder::past_law;
use pm_model_following::kept_law;
use pm_schema::TableSchema;
use pm_store::FileStore;
use pm_values::Refusal;
use std::alloc::Global;

/// Reads the frame of the snapshot with this id, from 1, of the table with this schema: all calls, one after another.
/// It gives the text. Whatever others do meanwhile, that is the frame of the snapshot, if it was committed before; and
/// a refusal tells what is so at the call that shows it.
pub fn read_frame<F: FileStore>(
    alloc: Global,
    schema: &TableSchema,
    id: u64,
    store: &mut F,
) -> Result<Vec<u8>, Refusal>
    requires declared { IsDeclared schema.now }
    requires after_origin { 1 ≤ id }
    ensures trace { HasTrace (DidFrame schema.now id (text_in result)) (F.seen store.old) (F.seen store.new) }
    ensures history { ReadsFrames schema.now id (F.seen store.old) (F.seen store.new) (text_in result) }
    ensures beside { IfOk result (λ text. Learns
        (λ f p. IsTableOf schema.now p.history × (id ≤ greatest) × (id ≤ count_of p.history))
        (λ f p. IsFrame p id text.items) (F.seen store.old) (F.seen store.new)) }
    ensures refused { IfErr result (λ refusal. Learns
        (λ f p. IsTableOf schema.now p.history × (id ≤ greatest) × (id ≤ count_of p.history)) (IsTold refusal)
        (F.seen store.old) (F.seen store.new)) }
    ensures later { IsLater (F.seen store.old) (F.seen store.new) }
{
    all_calls_law();
    match schema.copy(alloc) {
        Ok(schema) => make_calls(alloc, frame_at(schema, id), store),
        Err(_) => Err(Refusal::Memory),
    }
}

/// Makes all calls that are left, or those up to a refusal.
fn make_calls<F: FileStore>(
    alloc: Global,
    reader: FrameReader,
    store: &mut F,
) -> Result<Vec<u8>, Refusal>
    requires { 0 < calls_left reader }
    ensures trace { (a : LogAskedView) (first : StoreView) → HasTrace (Did a reader) first (F.seen store.old)
        → HasTrace (Ends a (text_in result)) first (F.seen store.new) }
    ensures beside { (a : LogAskedView) (first : StoreView) → HasTrace (Did a reader) first (F.seen store.old)
        → IfOk result (λ text. Learns (Knows reader) (λ f p. IsFrame p a.id text.items) (F.seen store.old)
        (F.seen store.new)) }
    ensures refused { IfErr result (λ refusal. Learns (Knows reader) (IsTold refusal) (F.seen store.old)
        (F.seen store.new)) }
    ensures later { IsLater (F.seen store.old) (F.seen store.new) }
{
    kept_law();
    past_law();
    let mut reader = reader;
    while !is_frame_ready(&reader) {
        match take_step(alloc, &mut reader, store) {
            Ok(_) => {}
            Err(refusal) => {
                drop(reader);
                return Err(refusal);
            }
        }
    }
    Ok(into_text(reader))
}
