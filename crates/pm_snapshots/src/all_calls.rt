//! All calls of a lister whose schema was read, one after another.

ghost use Rattle.std.specs.Prelude.{◌≡◌, ◌<◌, Some, IfErr, IfOk};
ghost use Rattle.pm_machine.specs.Trace.{HasTrace};
ghost use Rattle.pm_model_history.specs.History.{IsTableOf};
ghost use Rattle.pm_schema.specs.declared.schema.TableSchema.{TableSchema};
ghost use Rattle.pm_store.specs.Store.{StoreView, IsLater};
ghost use Rattle.pm_read_schema.specs.Beside.{IsTold, Learns};
ghost use Rattle.pm_snapshots.specs.AllCalls.{AreLinesIn, DidList, ListsBeside, ListsTables};
ghost use Rattle.pm_snapshots.specs.Lister.{calls_left, lines_of, schema_at, IsDone};
ghost use Rattle.pm_snapshots.specs.Meaning.{Knows};
ghost use Rattle.pm_snapshots.specs.Trace.{Did, Has};

use crate::lister::{Lister, is_list_done, list_of};
use pm_machine::take_step;
use pm_model_folder::past_law;
use pm_schema::TableSchema;
use pm_store::FileStore;
use pm_values::Refusal;
use std::alloc::Global;

/// Lists the snapshots of the table whose schema was just read: all further calls of a lister, one after another. What
/// it promises is said from whatever moment on that reading began. Whatever others do meanwhile, each line is that of
/// the table's snapshot as it stood when it was committed, and a refusal tells what is so at the call that shows it.
pub fn list_snapshots<F: FileStore>(
    alloc: Global,
    schema: TableSchema,
    store: &mut F,
) -> Result<Lister, Refusal>
    ensures done { IfOk result IsDone }
    ensures trace { (first : StoreView) → HasTrace (Has schema) first (F.seen store.old)
        → HasTrace (DidList schema result) first (F.seen store.new) }
    ensures history { (first : StoreView) → HasTrace (Has schema) first (F.seen store.old)
        → ListsTables schema first (F.seen store.new) result }
    ensures beside { IfOk result (λ m. ListsBeside schema (lines_of m) (F.seen store.old) (F.seen store.new)) }
    ensures refused { IfErr result (λ refusal. Learns (λ f p. IsTableOf schema p.history) (IsTold refusal)
        (F.seen store.old) (F.seen store.new)) }
    ensures later { IsLater (F.seen store.old) (F.seen store.new) }
{
    make_calls(alloc, list_of(schema), store)
}

/// Makes all calls that are left, or those up to a refusal.
fn make_calls<F: FileStore>(alloc: Global, lister: Lister, store: &mut F) -> Result<Lister, Refusal>
    requires { 0 < calls_left lister }
    ensures done { IfOk result IsDone }
    ensures trace { (s : TableSchema) (first : StoreView) → schema_at lister ≡ Some s
        → HasTrace (Did lister) first (F.seen store.old)
        → HasTrace (DidList s result) first (F.seen store.new) }
    ensures beside { (s : TableSchema) → schema_at lister ≡ Some s → IfOk result (λ m. Learns (Knows lister)
        (λ f p. AreLinesIn s (lines_of m) p) (F.seen store.old) (F.seen store.new)) }
    ensures refused { IfErr result (λ refusal. Learns (Knows lister) (IsTold refusal) (F.seen store.old)
        (F.seen store.new)) }
    ensures later { IsLater (F.seen store.old) (F.seen store.new) }
{
    past_law();
    let mut lister = lister;
    while !is_list_done(&lister) {
        match take_step(alloc, &mut lister, store) {
            Ok(_) => {}
            Err(refusal) => {
                drop(lister);
                return Err(refusal);
            }
        }
    }
    lister.known();
    Ok(lister)
}
