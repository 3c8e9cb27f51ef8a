//! What is tried on a double: acts of a process, one after another.

use crate::process::{open_store, said_of};
use pm_cases::Case;
use pm_cases_double::{Nobody, Plan, Seat, World, held, lent, world_of};
use pm_folder_store::{FolderStore, Host, HostError};
use std::alloc::Global;
use std::cell::RefCell;

/// The paths that are asked for, what stands there before, and the acts, with semicolons between them.
#[derive(Clone, Copy)]
pub struct Trial<'a> {
    pub alloc: Global,
    pub asked: &'a str,
    pub state: &'a str,
    pub acts: &'a str,
}

impl<'a> Trial<'a> {
    /// How many acts there are.
    pub fn count(&self) -> usize {
        self.acts.split(';').count()
    }

    /// The last act.
    pub fn last(&self) -> &'a str {
        match self.acts.rsplit_once(';') {
            Some((_, last)) => last,
            None => self.acts,
        }
    }

    /// The world before the first act.
    pub fn world(&self) -> Result<RefCell<World>, HostError> {
        Ok(RefCell::new(world_of(self.alloc, self.state)?))
    }

    /// How many calls of the host the last act makes.
    pub fn calls(&self) -> Result<u64, HostError> {
        let played = play(self, self.count(), Plan::healthy())?;
        let calls = calls_of(&played.world);
        drop(played);
        calls
    }
}

/// How many calls a world counted.
fn calls_of(world: &RefCell<World>) -> Result<u64, HostError> {
    Ok(lent(world)?.calls())
}

/// A world after acts of a process that ended then, and what the last of them was answered.
pub struct Played {
    pub world: RefCell<World>,
    pub answer: String,
}

impl Drop for Played {
    fn drop(self) {
        let Played { world, answer } = self;
    }
}

/// Plays so many acts of a process, and ends it. In the last of them calls of the host fail as planned.
pub fn play(trial: &Trial, count: usize, plan: Plan) -> Result<Played, HostError> {
    let world = trial.world()?;
    match ended(trial, &world, count, plan) {
        Ok(answer) => Ok(Played { world, answer }),
        Err(error) => {
            drop(world);
            Err(error)
        }
    }
}

/// The same in a world. Answers what the last act was answered.
fn ended(
    trial: &Trial,
    world: &RefCell<World>,
    count: usize,
    plan: Plan,
) -> Result<String, HostError> {
    let answer = acted(trial, world, count, plan)?;
    held(world)?.end_watched();
    Ok(answer)
}

/// Has a process act so often, and answers what it was answered at last.
fn acted(
    trial: &Trial,
    world: &RefCell<World>,
    count: usize,
    plan: Plan,
) -> Result<String, HostError> {
    let mut store = open_store(trial.alloc, Seat::new(world, Nobody))?;
    let answer = play_acts(trial, world, &mut store, count, plan);
    drop(store);
    answer
}

/// Has a process act so often with its store, with this plan in the last act. Answers what it was answered then.
pub fn play_acts<H: Host + Drop>(
    trial: &Trial,
    world: &RefCell<World>,
    store: &mut FolderStore<H>,
    count: usize,
    plan: Plan,
) -> Result<String, HostError> {
    let mut answer = String::new(trial.alloc);
    let mut left = count;
    for act in trial.acts.split(';').take(count) {
        left = left.saturating_sub(1);
        start(world, if left == 0 { plan } else { Plan::healthy() })?;
        answer = said_of(world, store, act)?;
    }
    Ok(answer)
}

/// Begins to count calls of the host anew, with a plan for them.
fn start(world: &RefCell<World>, plan: Plan) -> Result<(), HostError> {
    held(world)?.start(plan);
    Ok(())
}

/// What was said to a case, where nothing failed.
pub fn told<T: Drop>(case: Case, said: Result<T, HostError>) -> Result<String, HostError> {
    let _said = said?;
    Ok(case.into_answer()?)
}
