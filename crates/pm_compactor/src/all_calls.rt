//! All calls of a compactor, one after another.

ghost use Rattle.std.specs.Prelude.{◌≡◌, ◌<◌, ◌≤◌, ◌^◌};
ghost use Rattle.pm_engines.specs.TableEngine.{HasEngine};
ghost use Rattle.pm_schema.specs.Again.{IsDeclared};
ghost use Rattle.pm_machine.specs.Trace.{HasTrace};
ghost use Rattle.pm_store.specs.Store.{StoreView, IsLater};
ghost use Rattle.pm_compactor.specs.AllCalls.{asked_by, Beginning, CompactsTables, DidCompact, Ends, Has};
ghost use Rattle.pm_compactor.specs.Alone.{CompactsAlone};
ghost use Rattle.pm_compactor.specs.Compactor.{asking_of, calls_left};
ghost use Rattle.pm_compactor.specs.Trace.{AskedOf, Did};
ghost use Rattle.pm_schema.specs.declared.schema.TableSchema.{TableSchema as SchemaView};
ghost use Rattle.pm_plan.specs.declared.planned.Asking.{Asking as AskingView};

use crate::compactor::{CompactStep, Compactor, compact_step, new_compactor};
use pm_base::Txt;
use pm_model_folder::{past_law, settled_law, unnamed_law};
use pm_schema::TableSchema;
use pm_store::FileStore;
use pm_values::{Names, Refusal};
use std::alloc::Global;

/// What became of a compaction: the snapshot with that id was committed, or no group had a choice.
#[derive(Clone, Copy)]
pub enum Compacted {
    Committed(u64),
    Nothing,
}

/// Compacts the table whose schema was just read, in full by the word or not, by a user and at that moment: all further
/// calls, one after another, or those up to a refusal. What it promises is said from whatever moment on that reading
/// began.
pub fn compact_table<F: FileStore>(
    alloc: Global,
    schema: TableSchema,
    full: bool,
    user: Txt,
    names: Names,
    now_millis: i64,
    store: &mut F,
) -> Result<Compacted, Refusal>
    requires declared { IsDeclared schema }
    requires engine { HasEngine schema }
    requires count { names.count ≤ 2 ^ 60 }
    ensures trace { (first : StoreView) → HasTrace (Has schema) first (F.seen store.old)
        → HasTrace (DidCompact schema (asking_of full user names now_millis) result) first (F.seen store.new) }
    ensures history { (first : StoreView) → HasTrace (Has schema) first (F.seen store.old)
        → CompactsTables schema (asking_of full user names now_millis) first (F.seen store.new) result }
    ensures later { IsLater (F.seen store.old) (F.seen store.new) }
{
    past_law();
    settled_law();
    let compactor = new_compactor(schema, full, user, names, now_millis);
    compactor.known();
    make_calls(alloc, compactor, store)
}

/// Makes all calls that are left, or those up to a refusal.
fn make_calls<F: FileStore>(
    alloc: Global,
    compactor: Compactor,
    store: &mut F,
) -> Result<Compacted, Refusal>
    requires { 0 < calls_left compactor }
    ensures trace { (s : SchemaView) (asking : AskingView) (first : StoreView)
        → HasTrace (Did (asked_by s asking) compactor) first (F.seen store.old)
        → HasTrace (Ends s asking result) first (F.seen store.new) }
    ensures alone { (b : Beginning) → CompactsAlone b compactor (F.seen store.old) (F.seen store.new) result }
    ensures later { IsLater (F.seen store.old) (F.seen store.new) }
{
    past_law();
    unnamed_law();
    let mut compactor = compactor;
    loop {
        match compact_step(alloc, &mut compactor, store) {
            Ok(CompactStep::More) => {}
            Ok(CompactStep::Committed(id)) => {
                drop(compactor);
                return Ok(Compacted::Committed(id));
            }
            Ok(CompactStep::Nothing) => {
                drop(compactor);
                return Ok(Compacted::Nothing);
            }
            Err(refusal) => {
                drop(compactor);
                return Err(refusal);
            }
        }
    }
}
