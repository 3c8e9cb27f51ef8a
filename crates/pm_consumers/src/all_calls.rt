//! All calls of a lister of consumers, one after another.

ghost use Rattle.pm_machine.specs.Trace.{HasTrace};
ghost use Rattle.pm_store.specs.Store.{IsLater};
ghost use Rattle.pm_consumers.specs.AllCalls.{DidList, ListsBeside, ListsConsumers};

use crate::laws::{all_calls_law, listed_law};
use crate::lister::{consumer_lister, into_consumers, is_list_done};
use pm_consumer_files::NamedConsumer;
use pm_machine::take_step;
use pm_model_folder::past_law;
use pm_store::FileStore;
use pm_values::Refusal;
use std::alloc::Global;

/// The consumers whose files are there, rising by name: lists them, and reads the file of each. One that has gone when
/// its file is read is passed over. Refuses with `Damaged` for the first file that doesn't read; `StoreFault`; or out
/// of memory. Whatever others do meanwhile, each consumer is what its file said when it was read, and no file is
/// damaged of a folder that stands.
pub fn list_consumers<F: FileStore>(
    alloc: Global,
    store: &mut F,
) -> Result<Vec<NamedConsumer>, Refusal>
    ensures trace { HasTrace (DidList result) (F.seen store.old) (F.seen store.new) }
    ensures history { ListsConsumers (F.seen store.old) (F.seen store.new) result }
    ensures beside { ListsBeside (F.seen store.old) (F.seen store.new) result }
    ensures later { IsLater (F.seen store.old) (F.seen store.new) }
{
    all_calls_law();
    make_calls(alloc, store)
}

/// Makes all calls, or those up to a refusal.
fn make_calls<F: FileStore>(alloc: Global, store: &mut F) -> Result<Vec<NamedConsumer>, Refusal>
    ensures trace { HasTrace (DidList result) (F.seen store.old) (F.seen store.new) }
    ensures beside { ListsBeside (F.seen store.old) (F.seen store.new) result }
    ensures later { IsLater (F.seen store.old) (F.seen store.new) }
{
    past_law();
    listed_law();
    let mut lister = consumer_lister();
    while !is_list_done(&lister) {
        match take_step(alloc, &mut lister, store) {
            Ok(_) => {}
            Err(refusal) => {
                drop(lister);
                return Err(refusal);
            }
        }
    }
    Ok(into_consumers(lister))
}
