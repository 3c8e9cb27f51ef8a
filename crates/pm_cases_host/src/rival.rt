//! Acts on a double beside which a rival acts, before one of the calls of their host.

use crate::outcomes::Outcomes;
use crate::process::{open_store, said_beside};
use crate::shown::shows;
use crate::trial::{Trial, play_acts, told};
use pm_cases::Case;
use pm_cases_double::{Beside, Plan, Seat, World, held, lent};
use pm_folder_store::HostError;
use std::cell::RefCell;

/// What a rival does.
#[derive(Clone, Copy)]
struct Rival<'a> {
    act: &'a str,
}

impl Beside for Rival<'_> {
    fn act(&mut self, world: &RefCell<World>) -> Result<(), HostError> {
        if held(world)?.meets() {
            let answer = said_beside(world, self.act)?;
            held(world)?.keep_met(answer);
        }
        Ok(())
    }
}

/// Says what comes of the last act where a rival acts before one of its calls of the host, each in turn: the answers of
/// both, and what the folder shows then.
pub fn say_rival(case: &mut Case, trial: &Trial, rival: &str) -> Result<(), HostError> {
    let calls = trial.calls()?;
    let mut outcomes = Outcomes::new(trial.alloc);
    let added = add_met(&mut outcomes, trial, rival, calls);
    outcomes.say_counts(case);
    drop(outcomes);
    added
}

/// Adds what comes of each meeting.
fn add_met(
    outcomes: &mut Outcomes,
    trial: &Trial,
    rival: &str,
    calls: u64,
) -> Result<(), HostError> {
    for call in 1..calls.saturating_add(1) {
        let text = met(trial, rival, call)?;
        outcomes.add(text.as_str())?;
    }
    Ok(())
}

/// What comes of the last act where a rival acts before a call of the host.
fn met(trial: &Trial, rival: &str, call: u64) -> Result<String, HostError> {
    let world = trial.world()?;
    let mut case = Case::new(trial.alloc);
    let said = say_met(&mut case, trial, &world, rival, call);
    drop(world);
    told(case, said)
}

/// Says what both are answered, and what the folder shows then.
fn say_met(
    case: &mut Case,
    trial: &Trial,
    world: &RefCell<World>,
    rival: &str,
    call: u64,
) -> Result<(), HostError> {
    let answer = answer_beside(trial, world, rival, call)?;
    case.say(answer.as_str());
    drop(answer);
    case.say(" / ");
    case.say(lent(world)?.met());
    held(world)?.end_watched();
    case.say(" ");
    case.say(shows(trial, world)?.as_str());
    Ok(())
}

/// What the process is answered beside which the rival acts.
fn answer_beside(
    trial: &Trial,
    world: &RefCell<World>,
    rival: &str,
    call: u64,
) -> Result<String, HostError> {
    let mut store = open_store(trial.alloc, Seat::new(world, Rival { act: rival }))?;
    let answer = play_acts(trial, world, &mut store, trial.count(), Plan::met_at(call));
    drop(store);
    answer
}
