//! Any call of a store.

ghost use Rattle.pm_store.specs.Answers.{Tells};
ghost use Rattle.pm_store.specs.Lent.{lent_call};
ghost use Rattle.pm_store.specs.Store.{IsLater};

use crate::{Answer, FileStore, LentCall, StoreFail};
use std::alloc::Global;

/// Makes a call.
pub fn perform<F: FileStore>(
    alloc: Global,
    store: &mut F,
    call: &LentCall,
) -> Result<Answer, StoreFail>
    ensures answer { Tells (lent_call call.now) (λ answer. answer) (F.seen store.old) (F.seen store.new) result }
    ensures later { IsLater (F.seen store.old) (F.seen store.new) }
{
    match call {
        LentCall::List { folder } => Ok(Answer::Listed(store.list(alloc, folder.as_str())?)),
        LentCall::Read { path } => Ok(Answer::Found(store.read(alloc, path.as_str())?)),
        LentCall::Create { path, bytes } => {
            let made = store.create(alloc, path.as_str(), *bytes)?;
            Ok(Answer::Made(made))
        }
        LentCall::Publish { after, path, bytes } => {
            let published = store.publish(alloc, after.as_str(), path.as_str(), *bytes)?;
            Ok(Answer::Published(published))
        }
        LentCall::Swap {
            path,
            expected,
            bytes,
        } => {
            let swapped = store.swap(alloc, path.as_str(), *expected, *bytes)?;
            Ok(Answer::Swapped(swapped))
        }
        LentCall::Remove { path } => Ok(Answer::Removed(store.remove(alloc, path.as_str())?)),
    }
}
