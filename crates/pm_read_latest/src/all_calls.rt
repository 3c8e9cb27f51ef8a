//! The call of a reader of the latest snapshot's id.

ghost use Rattle.std.specs.Prelude.{◌≡◌, ◌≤◌, IfErr, IfOk};
ghost use Rattle.pm_machine.specs.Trace.{HasTrace};
ghost use Rattle.pm_model_folder.specs.Ledger.{count_of};
ghost use Rattle.pm_read_schema.specs.Beside.{AnyPast, IsTold, Learns};
ghost use Rattle.pm_snapshot.specs.Names.{greatest};
ghost use Rattle.pm_store.specs.Store.{IsLater};
ghost use Rattle.pm_read_latest.specs.AllCalls.{DidLatest, FindsLatests};

use crate::laws::all_calls_law;
use crate::reader::{into_latest, latest_reader};
use pm_machine::take_step;
use pm_model_folder::past_law;
use pm_store::FileStore;
use pm_values::Refusal;
use std::alloc::Global;

/// The id of the latest snapshot of a table, 0 where no later one than the origin is there: one call of the store.
/// Whatever others do meanwhile, it is that of the newest snapshot of the table at its call, so the snapshots up to it
/// were committed; and a refusal is want of memory or a fault of the store.
pub fn read_latest<F: FileStore>(alloc: Global, store: &mut F) -> Result<u64, Refusal>
    ensures trace { HasTrace (DidLatest result) (F.seen store.old) (F.seen store.new) }
    ensures history { FindsLatests (F.seen store.old) (F.seen store.new) result }
    ensures beside { IfOk result (λ latest. Learns AnyPast
        (λ f p. (latest ≤ greatest) × (latest ≤ count_of p.history)) (F.seen store.old) (F.seen store.new)) }
    ensures counted { IfOk result (λ latest. Learns AnyPast (λ f p. latest ≡ count_of p.history) (F.seen store.old)
        (F.seen store.new)) }
    ensures refused { IfErr result (λ refusal. Learns AnyPast (IsTold refusal) (F.seen store.old) (F.seen store.new)) }
    ensures later { IsLater (F.seen store.old) (F.seen store.new) }
{
    all_calls_law();
    past_law();
    let mut reader = latest_reader();
    match take_step(alloc, &mut reader, store) {
        Ok(_) => Ok(into_latest(reader)),
        Err(refusal) => {
            drop(reader);
            Err(refusal)
        }
    }
}
