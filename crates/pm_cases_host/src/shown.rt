//! What a folder shows of paths, after a power loss too.

use crate::outcomes::Outcomes;
use crate::process::open_store;
use crate::trial::{Trial, told};
use pm_cases::{Case, say_between};
use pm_cases_calls::say_content;
use pm_cases_double::{Nobody, Seat, World, held, lent};
use pm_folder_store::{FolderStore, HostError};
use pm_store::FileStore;
use std::alloc::Global;
use std::cell::RefCell;

/// More images than any case has.
const MOST_IMAGES: u64 = 4096;

/// What the paths show that a trial asks for: in the folder as it is, and then whatever else in its images.
pub fn shows(trial: &Trial, world: &RefCell<World>) -> Result<String, HostError> {
    let mut outcomes = Outcomes::new(trial.alloc);
    let added = add_shows(&mut outcomes, trial, world);
    let mut case = Case::new(trial.alloc);
    outcomes.say(&mut case, " or ");
    drop(outcomes);
    told(case, added)
}

/// Adds what the images of a world show, and answers how many there are.
pub fn add_shows(
    outcomes: &mut Outcomes,
    trial: &Trial,
    world: &RefCell<World>,
) -> Result<u64, HostError> {
    let count = lent(world)?.images();
    if count > MOST_IMAGES {
        return Err(HostError::Other);
    }
    for number in 0..count {
        let text = shown_in(trial, world, number)?;
        outcomes.add(text.as_str())?;
    }
    Ok(count)
}

/// What the paths show in the image of a number.
fn shown_in(trial: &Trial, world: &RefCell<World>, number: u64) -> Result<String, HostError> {
    let image = RefCell::new(lent(world)?.image(number)?);
    let mut case = Case::new(trial.alloc);
    let said = say_shown(&mut case, trial, &image);
    drop(image);
    told(case, said)
}

/// Says what the paths show in an image, and whether anything else that stood there isn't as it was.
fn say_shown(case: &mut Case, trial: &Trial, image: &RefCell<World>) -> Result<(), HostError> {
    held(image)?.begin_aside();
    say_asked(case, trial, image)?;
    if is_harmed(trial, &*lent(image)?)? {
        case.say(" harmed");
    }
    Ok(())
}

/// Says what the paths show.
fn say_asked(case: &mut Case, trial: &Trial, image: &RefCell<World>) -> Result<(), HostError> {
    let mut store = open_store(trial.alloc, Seat::new(image, Nobody))?;
    let said = say_paths(case, trial, image, &mut store);
    drop(store);
    said
}

/// The same through a store.
fn say_paths(
    case: &mut Case,
    trial: &Trial,
    image: &RefCell<World>,
    store: &mut FolderStore<Seat<'_, Nobody>>,
) -> Result<(), HostError> {
    let mut is_later = false;
    for path in trial.asked.split(' ') {
        say_between(case, is_later, " ");
        match path.strip_prefix('/') {
            Some(place) => say_place(case, &*lent(image)?, place),
            None => say_path(case, store, path),
        }
        is_later = true;
    }
    Ok(())
}

/// Says the bytes of a file at a path of the double, `-` where none is.
fn say_place(case: &mut Case, world: &World, path: &str) {
    match world.content(path) {
        Some(bytes) => case.say_quoted_bytes(bytes),
        None => case.say("-"),
    }
}

/// Says what a store reads at a path, and whether its listing shows another thing.
fn say_path(case: &mut Case, store: &mut FolderStore<Seat<'_, Nobody>>, path: &str) {
    let alloc = case.alloc();
    let is_listed = is_listed(alloc, store, path);
    match store.read(alloc, path) {
        Ok(content) => {
            say_content(case, &content);
            say_listed(case, is_listed, content.is_some());
        }
        Err(_) => case.say("failed"),
    }
}

/// Says whether a listing failed or shows another thing than a read.
fn say_listed(case: &mut Case, is_listed: Option<bool>, is_there: bool) {
    match is_listed {
        Some(listed) if listed == is_there => {}
        Some(_) => case.say(" listed otherwise"),
        None => case.say(" not listed"),
    }
}

/// Whether a listing of the folder around a path shows it; none where it failed.
fn is_listed(alloc: Global, store: &mut FolderStore<Seat<'_, Nobody>>, path: &str) -> Option<bool> {
    let (folder, name) = path.rsplit_once('/').unwrap_or(("", path));
    match store.list(alloc, folder) {
        Ok(names) => Some(names.iter().any(|listed| listed.as_str() == name)),
        Err(_) => None,
    }
}

/// Whether a file that stood there before isn't as it was: one that isn't asked for, isn't about to be written, and
/// that no power loss may undo.
fn is_harmed(trial: &Trial, world: &World) -> Result<bool, HostError> {
    for word in trial.state.split(' ') {
        if let Some((path, text)) = word.rsplit_once('=') {
            if is_other(trial, path) && world.content(path) != Some(written(text)) {
                return Ok(true);
            }
        }
    }
    Ok(false)
}

/// The bytes of a file that a word of a state says.
fn written(text: &str) -> &[u8] {
    text.strip_suffix('!').unwrap_or(text).as_bytes()
}

/// Whether a file of the state has to stay as it is.
fn is_other(trial: &Trial, path: &str) -> bool {
    let is_asked = trial.asked.split(' ').any(|asked| is_same(asked, path));
    !path.starts_with('?') && !path.starts_with("t/.") && !is_asked
}

/// Whether a path that is asked for stands at a path of the double.
fn is_same(asked: &str, path: &str) -> bool {
    match asked.strip_prefix('/') {
        Some(place) => place == path,
        None => path.strip_prefix("t/") == Some(asked),
    }
}
