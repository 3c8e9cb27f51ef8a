//! The call of a reader of a consumer's file.

ghost use Rattle.pm_machine.specs.Trace.{HasTrace};
ghost use Rattle.pm_store.specs.Store.{IsLater};
ghost use Rattle.pm_read_consumer.specs.AllCalls.{DidFind, FindsBeside, FindsConsumers};

use crate::laws::all_calls_law;
use crate::phase::FoundConsumer;
use crate::reader::{consumer_reader, into_found};
use pm_base::Txt;
use pm_machine::take_step;
use pm_model_folder::{consumers_law, past_law};
use pm_store::FileStore;
use pm_values::Refusal;
use std::alloc::Global;

/// The file of the consumer of a name, and what it says, where it is there: one call of the store. Refuses with
/// `Damaged` exactly where the bytes don't read; `StoreFault`; or out of memory. Whatever others do meanwhile, what was
/// found is there when it is read, and no file is damaged of a table that stands: a refusal is want of memory or a
/// fault of the store.
pub fn find_consumer<F: FileStore>(
    alloc: Global,
    name: &Txt,
    store: &mut F,
) -> Result<FoundConsumer, Refusal>
    ensures trace { HasTrace (DidFind name.now result) (F.seen store.old) (F.seen store.new) }
    ensures history { FindsConsumers name.now (F.seen store.old) (F.seen store.new) result }
    ensures beside { FindsBeside name.now (F.seen store.old) (F.seen store.new) result }
    ensures later { IsLater (F.seen store.old) (F.seen store.new) }
{
    all_calls_law();
    consumers_law();
    past_law();
    let mut reader = match consumer_reader(alloc, name) {
        Ok(reader) => reader,
        Err(_) => return Err(Refusal::Memory),
    };
    match take_step(alloc, &mut reader, store) {
        Ok(_) => Ok(into_found(reader)),
        Err(refusal) => {
            drop(reader);
            Err(refusal)
        }
    }
}
