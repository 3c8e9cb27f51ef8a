//! All calls of an expirer, one after another.

ghost use Rattle.std.specs.Prelude.{◌<◌};
ghost use Rattle.pm_machine.specs.Trace.{HasTrace};
ghost use Rattle.pm_model_folder.specs.Changes.{Actor, HavePlainNames};
ghost use Rattle.pm_store.specs.Store.{StoreView, IsLater};
ghost use Rattle.pm_read_expiry.specs.Found.{IsAsking};
ghost use Rattle.pm_read_expiry.specs.declared.asking.Asking.{Asking as AskingView};
ghost use Rattle.pm_snapshots.specs.Trace.{Has};
ghost use Rattle.pm_expire.specs.AllCalls.{DidExpire};
ghost use Rattle.pm_expire.specs.Beside.{BringsFrom, ExpiresAlone, ExpiresBeside, ExpiresFrom, HasCome};
ghost use Rattle.pm_expire.specs.Expirer.{calls_left};

use crate::expirer::{ExpireStep, Expirer, expirer_of, step_expirer};
use crate::laws::known_law;
use pm_model_folder::past_law;
use pm_read_expiry::Asking;
use pm_store::FileStore;
use pm_values::Refusal;
use std::alloc::Global;

/// Which snapshots a table keeps: from the first to the last, both 0 where it has none.
#[derive(Clone, Copy)]
pub struct Kept {
    pub first: u64,
    pub last: u64,
}

/// Expires the table whose schema was just read: all further calls, one after another, or those up to a refusal. What
/// it promises of its calls is said from whatever moment on that reading began.
pub fn expire_table<F: FileStore>(
    alloc: Global,
    asking: Asking,
    store: &mut F,
) -> Result<Kept, Refusal>
    requires asking { IsAsking asking }
    requires plain { HavePlainNames asking.schema }
    ensures trace { (first : StoreView) → HasTrace (Has asking.schema) first (F.seen store.old)
        → HasTrace (DidExpire asking result) first (F.seen store.new) }
    ensures beside { (me : Actor) → ExpiresBeside me asking.schema result (F.seen store.old) (F.seen store.new) }
    ensures alone { ExpiresAlone asking.schema (F.seen store.old) (F.seen store.new) }
    ensures later { IsLater (F.seen store.old) (F.seen store.new) }
{
    match expirer_of(alloc, asking) {
        Ok(expirer) => make_calls(alloc, expirer, store),
        Err(_) => Err(Refusal::Memory),
    }
}

/// Makes all calls that are left, or those up to a refusal.
fn make_calls<F: FileStore>(alloc: Global, expirer: Expirer, store: &mut F) -> Result<Kept, Refusal>
    requires { 0 < calls_left expirer }
    ensures trace { (a : AskingView) (first : StoreView) → HasTrace (HasCome a expirer) first (F.seen store.old)
        → HasTrace (DidExpire a result) first (F.seen store.new) }
    ensures beside { (me : Actor) → BringsFrom me expirer result (F.seen store.old) (F.seen store.new) }
    ensures alone { ExpiresFrom expirer (F.seen store.old) (F.seen store.new) }
    ensures later { IsLater (F.seen store.old) (F.seen store.new) }
{
    known_law();
    past_law();
    let mut expirer = expirer;
    loop {
        match step_expirer(alloc, &mut expirer, store) {
            Ok(ExpireStep::More) => {}
            Ok(ExpireStep::Done { first, last }) => {
                drop(expirer);
                return Ok(Kept { first, last });
            }
            Err(refusal) => {
                drop(expirer);
                return Err(refusal);
            }
        }
    }
}
