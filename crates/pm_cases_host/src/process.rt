//! Processes on a double, each with a store of its own on the folder `t`.

use pm_cases_calls::{said, split_at_blank};
use pm_cases_double::{Nobody, Seat, World, held, lent, put_word};
use pm_folder_store::{FolderStore, Host, HostError};
use std::alloc::Global;
use std::cell::RefCell;

/// The table's folder.
const TABLE: &str = "t";

/// The store of a process.
pub fn open_store<H: Host + Drop>(alloc: Global, host: H) -> Result<FolderStore<H>, HostError> {
    match FolderStore::open(alloc, host, TABLE) {
        Ok(store) => Ok(store),
        Err(_) => Err(HostError::Other),
    }
}

/// Has a process act: a call of its store, `wait`, which has two seconds pass, `clock TIME`, which has the next look at
/// the clock find so many microseconds since 1970, or what others do beside it. Answers what it was answered.
pub fn said_of<H: Host + Drop>(
    world: &RefCell<World>,
    store: &mut FolderStore<H>,
    act: &str,
) -> Result<String, HostError> {
    let alloc = alloc_of(world)?;
    let (word, rest) = split_at_blank(act);
    match word {
        "clock" => {
            set_clock(world, rest.parse::<u64>().unwrap_or(0))?;
            Ok(String::from_str(alloc, "set")?)
        }
        "wait" => {
            wait(world)?;
            Ok(String::from_str(alloc, "later")?)
        }
        "other" | "foreign" => said_beside(world, act),
        _ => Ok(said(alloc, store, act)?),
    }
}

/// The allocator of a world.
fn alloc_of(world: &RefCell<World>) -> Result<Global, HostError> {
    Ok(lent(world)?.alloc())
}

/// Has two seconds pass.
fn wait(world: &RefCell<World>) -> Result<(), HostError> {
    held(world)?.wait();
    Ok(())
}

/// Has the next look at the clock find a time.
fn set_clock(world: &RefCell<World>, time: u64) -> Result<(), HostError> {
    held(world)?.set_clock(time);
    Ok(())
}

/// Whether an act is a call of the process's own store.
pub fn is_own_call(act: &str) -> bool {
    !matches!(
        split_at_blank(act).0,
        "wait" | "clock" | "other" | "foreign"
    )
}

/// What others do beside a process: `foreign WORD`, which puts what a word of a state says past any store, or
/// `other CALL`, a call of another process's store. Answers what that one was answered.
pub fn said_beside(world: &RefCell<World>, act: &str) -> Result<String, HostError> {
    let (word, rest) = split_at_blank(act);
    let alloc = alloc_of(world)?;
    if word == "foreign" {
        put(world, rest)?;
        return Ok(String::from_str(alloc, "made")?);
    }
    held(world)?.begin_aside();
    let answer = said_by_another(alloc, world, rest);
    end_aside(world)?;
    answer
}

/// Ends the process that acts beside.
fn end_aside(world: &RefCell<World>) -> Result<(), HostError> {
    held(world)?.end_aside();
    Ok(())
}

/// Puts what a word of a state says.
fn put(world: &RefCell<World>, word: &str) -> Result<(), HostError> {
    put_word(&mut *held(world)?, word)
}

/// What another process's store answers to a call.
fn said_by_another(alloc: Global, world: &RefCell<World>, call: &str) -> Result<String, HostError> {
    let mut store = open_store(alloc, Seat::new(world, Nobody))?;
    let answer = said(alloc, &mut store, call);
    drop(store);
    Ok(answer?)
}
