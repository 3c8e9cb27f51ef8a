//! Acts on a double of which calls of the host fail.

use crate::outcomes::Outcomes;
use crate::process::{open_store, said_of};
use crate::shown::shows;
use crate::trial::{Trial, play_acts, told};
use pm_cases::Case;
use pm_cases_double::{Nobody, Plan, Seat, Step, World, held, lent};
use pm_folder_store::{FolderStore, HostError};
use std::alloc::Global;
use std::cell::RefCell;

/// Says what comes of the last act where one of its calls of the host fails, each in turn: once, and with all that
/// follow.
pub fn say_fails(case: &mut Case, trial: &Trial, error: HostError) -> Result<(), HostError> {
    let calls = trial.calls()?;
    case.say("once ");
    say_fails_by(case, trial, calls, error, false)?;
    case.say(" | on ");
    say_fails_by(case, trial, calls, error, true)
}

/// The same, once or on.
fn say_fails_by(
    case: &mut Case,
    trial: &Trial,
    calls: u64,
    error: HostError,
    is_lasting: bool,
) -> Result<(), HostError> {
    let mut outcomes = Outcomes::new(trial.alloc);
    let added = add_fails(&mut outcomes, trial, calls, error, is_lasting);
    outcomes.say_counts(case);
    drop(outcomes);
    added
}

/// Adds what comes of each failure.
fn add_fails(
    outcomes: &mut Outcomes,
    trial: &Trial,
    calls: u64,
    error: HostError,
    is_lasting: bool,
) -> Result<(), HostError> {
    for call in 1..calls.saturating_add(1) {
        let plan = if is_lasting {
            Plan::from(call, error)
        } else {
            Plan::once(call, error)
        };
        add_failed(outcomes, trial, plan)?;
    }
    Ok(())
}

/// Adds what comes of the last act where calls of the host fail, and of the same act once more when none fails.
fn add_failed(outcomes: &mut Outcomes, trial: &Trial, plan: Plan) -> Result<(), HostError> {
    let world = trial.world()?;
    let added = add_failed_in(outcomes, trial, &world, plan);
    drop(world);
    added
}

/// The same in a world.
fn add_failed_in(
    outcomes: &mut Outcomes,
    trial: &Trial,
    world: &RefCell<World>,
    plan: Plan,
) -> Result<(), HostError> {
    let mut case = Case::new(trial.alloc);
    let said = say_failed(&mut case, trial, world, plan);
    let text = told(case, said)?;
    let call = first_failed(trial.alloc, lent(world)?.steps())?;
    outcomes.add_after(text.as_str(), call.as_str())
}

/// Says what the last act is answered where calls of the host fail, and what the folder shows; then the same of that
/// act once more, by the same process, when none fails.
fn say_failed(
    case: &mut Case,
    trial: &Trial,
    world: &RefCell<World>,
    plan: Plan,
) -> Result<(), HostError> {
    let mut store = open_store(trial.alloc, Seat::new(world, Nobody))?;
    let said = say_twice(case, trial, world, &mut store, plan);
    drop(store);
    said
}

/// The same with the process's store.
fn say_twice(
    case: &mut Case,
    trial: &Trial,
    world: &RefCell<World>,
    store: &mut FolderStore<Seat<'_, Nobody>>,
    plan: Plan,
) -> Result<(), HostError> {
    let answer = play_acts(trial, world, store, trial.count(), plan)?;
    say_left(case, trial, world, answer)?;
    heal(world)?;
    case.say(" then ");
    let answer = said_of(world, store, trial.last())?;
    say_left(case, trial, world, answer)
}

/// Has no call of the host fail any more.
fn heal(world: &RefCell<World>) -> Result<(), HostError> {
    held(world)?.heal();
    Ok(())
}

/// Says an answer, what the folder shows, and whether the process has left anything open.
fn say_left(
    case: &mut Case,
    trial: &Trial,
    world: &RefCell<World>,
    answer: String,
) -> Result<(), HostError> {
    case.say(answer.as_str());
    drop(answer);
    case.say(" ");
    case.say(shows(trial, world)?.as_str());
    if lent(world)?.is_open() {
        case.say(" open");
    }
    Ok(())
}

/// The first call of the host that failed.
fn first_failed(alloc: Global, steps: &[Step]) -> Result<String, HostError> {
    for step in steps {
        if step.is_failed() {
            return Ok(step.text(alloc)?);
        }
    }
    Ok(String::new(alloc))
}
