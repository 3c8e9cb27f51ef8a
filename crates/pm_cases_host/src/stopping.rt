//! Acts on a double that come to their ends, and acts that are stopped at each call of the host.

use crate::outcomes::Outcomes;
use crate::process::is_own_call;
use crate::shown::{add_shows, shows};
use crate::trial::{Played, Trial, play};
use pm_cases::{Case, say_between};
use pm_cases_double::{Plan, Step, World, lent};
use pm_folder_store::HostError;
use std::alloc::Global;
use std::cell::RefCell;

/// Says the answer of each act, with the changes, the syncs and the locks that it asked the host for, in their order.
pub fn say_calls(case: &mut Case, trial: &Trial) -> Result<(), HostError> {
    for count in 1..trial.count().saturating_add(1) {
        say_between(case, count > 1, "; ");
        let played = play(trial, count, Plan::healthy())?;
        case.say(played.answer.as_str());
        say_steps(case, lent(&played.world)?.steps());
        drop(played);
    }
    Ok(())
}

/// Says the changes, the syncs and the locks among calls of the host that were done.
fn say_steps(case: &mut Case, steps: &[Step]) {
    let mut is_later = false;
    for step in steps {
        if step.is_told() {
            case.say(if is_later { ", " } else { ": " });
            case.say_made(step.text(case.alloc()));
            is_later = true;
        }
    }
}

/// Says the answer of each act, then in how many ways a power loss may leave the folder before it and after each of its
/// changes, what these images show until it answers, and what they show from then on.
pub fn say_images(case: &mut Case, trial: &Trial) -> Result<(), HostError> {
    let mut count = 0usize;
    for act in trial.acts.split(';') {
        say_between(case, count > 0, "; ");
        count = count.saturating_add(1);
        let played = play(trial, count, Plan::healthy())?;
        case.say(played.answer.as_str());
        if is_own_call(act) {
            say_images_of(case, trial, count, &played)?;
        }
        drop(played);
    }
    Ok(())
}

/// Says the images of the last of so many acts.
fn say_images_of(
    case: &mut Case,
    trial: &Trial,
    count: usize,
    played: &Played,
) -> Result<(), HostError> {
    case.say(":");
    let mut during = Outcomes::new(trial.alloc);
    let added = add_stopped(case, &mut during, trial, count, &played.world);
    case.say(", until then ");
    during.say(case, " or ");
    drop(during);
    added?;
    case.say(", then ");
    case.say(shows(trial, &played.world)?.as_str());
    Ok(())
}

/// Adds what the folder shows in each image where the last of so many acts is stopped, and says how many there are.
fn add_stopped(
    case: &mut Case,
    during: &mut Outcomes,
    trial: &Trial,
    count: usize,
    world: &RefCell<World>,
) -> Result<(), HostError> {
    let ends = stops(trial.alloc, lent(world)?.steps())?;
    for end in &ends {
        let images = add_images(during, trial, count, *end)?;
        case.say_made(format!(in case.alloc(); " {images}"));
    }
    Ok(())
}

/// The same where it is stopped after so many calls of the host. Answers how many images there are.
fn add_images(
    during: &mut Outcomes,
    trial: &Trial,
    count: usize,
    end: u64,
) -> Result<u64, HostError> {
    let stopped = play(trial, count, Plan::stop(end))?;
    let images = add_shows(during, trial, &stopped.world);
    drop(stopped);
    images
}

/// After how many calls of the host to stop: before the first one, and after each that changed something.
fn stops(alloc: Global, steps: &[Step]) -> Result<Vec<u64>, HostError> {
    let mut stops = Vec::new(alloc);
    stops.push(0)?;
    for step in steps {
        if step.is_change() {
            stops.push(step.number())?;
        }
    }
    Ok(stops)
}
