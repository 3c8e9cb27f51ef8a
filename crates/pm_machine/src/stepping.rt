//! One step of any machine on any store.

ghost use Rattle.std.specs.Prelude.{◌≡◌, None, OnErr};
ghost use Rattle.pm_machine.specs.Step.{Called, Stepped, path_of, refusal_of};
ghost use Rattle.pm_store.specs.Lent.{lent_call};
ghost use Rattle.pm_store.specs.Store.{IsLater};

use crate::Machine;
use pm_base::Txt;
use pm_store::{Answer, FileStore, LentCall, StoreFail, perform};
use pm_values::Refusal;
use std::alloc::Global;

/// Makes the machine's next call, and hands it the answer. At its end nothing is done. A machine whose call couldn't be
/// made, or in whose call the store failed, is stopped.
pub fn step<M: Machine, F: FileStore>(
    alloc: Global,
    machine: &mut M,
    store: &mut F,
) -> Result<(), Refusal>
    ensures stepped { Stepped M.call_of M.goes M.refuses M.stops machine.old machine.new
        (F.seen store.old) (F.seen store.new) result }
    ensures over { OnErr result (M.call_of machine.new ≡ None) }
    ensures later { IsLater (F.seen store.old) (F.seen store.new) }
{
    match make_call(alloc, machine, store) {
        Ok(Some(answer)) => machine.take(alloc, answer),
        Ok(None) => Ok(()),
        Err(refusal) => {
            machine.stop();
            Err(refusal)
        }
    }
}

/// Makes the machine's next call, if it has one, and lets go of what it lends.
fn make_call<M: Machine, F: FileStore>(
    alloc: Global,
    machine: &M,
    store: &mut F,
) -> Result<Option<Answer>, Refusal>
    ensures called { Called (M.call_of machine.now) (F.seen store.old) (F.seen store.new) result }
    ensures later { IsLater (F.seen store.old) (F.seen store.new) }
{
    match machine.call(alloc) {
        Ok(Some(call)) => match perform(alloc, store, &call) {
            Ok(answer) => Ok(Some(answer)),
            Err(fail) => Err(refusal_of(fail, call)),
        },
        Ok(None) => Ok(None),
        Err(_) => Err(Refusal::Memory),
    }
}

/// Why a command is refused whose call the store didn't answer.
fn refusal_of(fail: StoreFail, call: LentCall) -> Refusal
    ensures { result ≡ refusal_of fail (lent_call call.entry) }
{
    match fail {
        StoreFail::Memory => Refusal::Memory,
        StoreFail::Failed => Refusal::StoreFault {
            path: path_of(call),
        },
    }
}

/// The path that is named where the call fails.
fn path_of(call: LentCall) -> Txt
    ensures { result ≡ path_of (lent_call call.entry) }
{
    match call {
        LentCall::List { folder } => folder,
        LentCall::Read { path } => path,
        LentCall::Create { path, .. } => path,
        LentCall::Publish { path, .. } => path,
        LentCall::Swap { path, .. } => path,
        LentCall::Remove { path } => path,
    }
}
