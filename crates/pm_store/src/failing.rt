//! A store in memory that fails at planned calls.

ghost use Rattle.std.specs.Prelude.{◌≡◌, ◌≤◌, [], IfOk};
ghost use Rattle.pm_base.specs.Faults.{one_more};
ghost use Rattle.std.specs.Option.{option_copied};
ghost use Rattle.pm_store.specs.declared.answer.Answer.TheVariants as answers;
ghost use Rattle.pm_store.specs.declared.call.Call.TheVariants as calls;
ghost use Rattle.pm_store.specs.Answers.{Tells};
ghost use Rattle.pm_store.specs.Failing.{fail_seen, planned_at, FollowsPlan};
ghost use Rattle.pm_store.specs.Store.{IsLater};

use crate::{
    Answer, Call, Effect, FileStore, Made, MemStore, Op, Published, Removed, StoreFail, Swapped,
};
use pm_base::{Blob, Txt};
use std::alloc::{AllocError, Global};
use std::marker::Model;

/// A call that fails, numbered from 1, and how much of it is carried out all the same.
pub struct Planned {
    pub call: u64,
    pub effect: Effect,
}

impl Drop for Planned {
    fn drop(self) {
        let Planned { call, effect } = self;
    }
}

/// A store in memory whose planned calls fail. A part is carried out of a create of an absent path
/// alone: planned of any other call it is nothing.
pub struct FailStore {
    store: MemStore,
    plan: Vec<Planned>,
    calls: u64,
    faults: u64,
}

impl Drop for FailStore {
    fn drop(self) {
        let FailStore {
            store,
            plan,
            calls,
            faults,
        } = self;
    }
}

impl Model for FailStore {
    ghost use Rattle.pm_store.specs.Failing.{FailView};

    ghost Value = { FailView };

    ghost view = { λ s. record { ops = s.store; plan = s.plan.items; calls = s.calls; faults = s.faults } };
}

impl FailStore {
    /// A store without files, and the calls that are to fail.
    pub fn new(alloc: Global, plan: Vec<Planned>) -> FailStore
        ensures { result ≡ record { ops = []; plan = plan.items; calls = 0; faults = 0 } }
    {
        FailStore {
            store: MemStore::new(alloc),
            plan,
            calls: 0,
            faults: 0,
        }
    }

    /// All operations, the first one first.
    pub fn ops(&self) -> &[Op]
        ensures { result.now ≡ self.now.ops }
    {
        self.store.ops()
    }

    /// Makes a call, unless it is planned to fail.
    fn make(&mut self, alloc: Global, call: Call) -> Result<Answer, StoreFail>
        ensures answer { Tells call (λ answer. answer) (fail_seen self.old) (fail_seen self.new) result }
        ensures later { IsLater (fail_seen self.old) (fail_seen self.new) }
        ensures planned { FollowsPlan call self.old self.new result }
    {
        self.calls = self.calls.saturating_add(1);
        match planned_at(alloc, self.calls, &self.plan)? {
            Some(effect) => {
                let effect = self.store.allowed(&call, effect);
                self.store.record(alloc, Op::own(call, effect))?;
                self.faults = raised(self.faults);
                Err(StoreFail::Failed)
            }
            None => Ok(self.store.make(alloc, call)?),
        }
    }
}

/// A count of faults after one more.
fn raised(faults: u64) -> u64
    ensures is { result ≡ one_more faults }
    ensures later { faults ≤ result }
{
    faults.saturating_add(1)
}

/// The effect that is planned of the call with a number.
fn planned_at(alloc: Global, number: u64, plan: &[Planned]) -> Result<Option<Effect>, AllocError>
    ensures { IfOk result (λ effect. effect ≡ planned_at number plan.now) }
{
    match plan.iter().find(|planned| planned.call == number) {
        Some(planned) => Ok(Some(planned.effect.copy(alloc)?)),
        None => Ok(None),
    }
}

impl FileStore for FailStore {
    ghost seen = { fail_seen };

    fn list(&mut self, alloc: Global, folder: &str) -> Result<Vec<Txt>, StoreFail>
        ensures answer { Tells (calls.List folder.now) answers.Listed (fail_seen self.old) (fail_seen self.new) result }
        ensures later { IsLater (fail_seen self.old) (fail_seen self.new) }
        ensures planned { FollowsPlan (calls.List folder.now) self.old self.new result }
    {
        match self.make(alloc, Call::list(alloc, folder)?)? {
            Answer::Listed(names) => Ok(names),
            _ => unreachable!(),
        }
    }

    fn read(&mut self, alloc: Global, path: &str) -> Result<Option<Blob>, StoreFail>
        ensures answer { Tells (calls.Read path.now) answers.Found (fail_seen self.old) (fail_seen self.new) result }
        ensures later { IsLater (fail_seen self.old) (fail_seen self.new) }
        ensures planned { FollowsPlan (calls.Read path.now) self.old self.new result }
    {
        match self.make(alloc, Call::read(alloc, path)?)? {
            Answer::Found(found) => Ok(found),
            _ => unreachable!(),
        }
    }

    fn create(&mut self, alloc: Global, path: &str, bytes: &[u8]) -> Result<Made, StoreFail>
        ensures answer { Tells (calls.Create path.now bytes.now) answers.Made
            (fail_seen self.old) (fail_seen self.new) result }
        ensures later { IsLater (fail_seen self.old) (fail_seen self.new) }
        ensures planned { FollowsPlan (calls.Create path.now bytes.now) self.old self.new result }
    {
        match self.make(alloc, Call::create(alloc, path, bytes)?)? {
            Answer::Made(made) => Ok(made),
            _ => unreachable!(),
        }
    }

    fn publish(
        &mut self,
        alloc: Global,
        after: &str,
        path: &str,
        bytes: &[u8],
    ) -> Result<Published, StoreFail>
        ensures answer { Tells (calls.Publish after.now path.now bytes.now) answers.Published
            (fail_seen self.old) (fail_seen self.new) result }
        ensures later { IsLater (fail_seen self.old) (fail_seen self.new) }
        ensures planned { FollowsPlan (calls.Publish after.now path.now bytes.now) self.old self.new result }
    {
        match self.make(alloc, Call::publish(alloc, after, path, bytes)?)? {
            Answer::Published(published) => Ok(published),
            _ => unreachable!(),
        }
    }

    fn swap(
        &mut self,
        alloc: Global,
        path: &str,
        expected: Option<&[u8]>,
        bytes: &[u8],
    ) -> Result<Swapped, StoreFail>
        ensures answer { Tells (calls.Swap path.now (option_copied expected.entry) bytes.now) answers.Swapped
            (fail_seen self.old) (fail_seen self.new) result }
        ensures later { IsLater (fail_seen self.old) (fail_seen self.new) }
        ensures planned { FollowsPlan (calls.Swap path.now (option_copied expected.entry) bytes.now)
            self.old self.new result }
    {
        match self.make(alloc, Call::swap(alloc, path, expected, bytes)?)? {
            Answer::Swapped(swapped) => Ok(swapped),
            _ => unreachable!(),
        }
    }

    fn remove(&mut self, alloc: Global, path: &str) -> Result<Removed, StoreFail>
        ensures answer { Tells (calls.Remove path.now) answers.Removed
            (fail_seen self.old) (fail_seen self.new) result }
        ensures later { IsLater (fail_seen self.old) (fail_seen self.new) }
        ensures planned { FollowsPlan (calls.Remove path.now) self.old self.new result }
    {
        match self.make(alloc, Call::remove(alloc, path)?)? {
            Answer::Removed(removed) => Ok(removed),
            _ => unreachable!(),
        }
    }
}
