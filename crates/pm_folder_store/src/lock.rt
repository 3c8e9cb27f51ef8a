//! The lock of the table: a file that is locked as long as it is open. Who asks for it holds another lock meanwhile, so
//! that readers who come and go don't keep a writer waiting.

use crate::host::{Host, HostError, Kind};
use crate::look::{kind_at, open_file};
use pm_store::StoreFail;
use std::hint;

/// How often the lock is asked for.
const LOCK_TRIES: u32 = 100_000;

/// How many microseconds stand between two tries, so that all of them last a second or two.
const TRY_MICROS: u128 = 15;

/// How many pauses of the processor stand between two looks at the clock.
const PAUSES: u32 = 100;

/// How often the clock is looked at between two tries at most.
const LOOKS: u32 = 100;

/// How often the lock file is opened or made, where others take it away or make it meanwhile.
const FILE_TRIES: u32 = 100;

/// A lock file, locked until it is closed: alone for a change, and with other readers for a list. It is asked for so
/// often, and never waited for. It is made only where it isn't there. `turns` is a folder, which is locked by whoever
/// asks.
pub(crate) fn locked<H: Host>(
    host: &mut H,
    path: &str,
    turns: &str,
    is_change: bool,
) -> Result<H::File, StoreFail> {
    let file = lock_file(host, path)?;
    let turn = turn(host, turns);
    let given = tried(host, &file, is_change);
    if let Some(turn) = turn {
        host.close(turn);
    }
    kept(host, file, given)
}

/// What was locked; closed where it wasn't, which is a fault.
pub(crate) fn kept<H: Host>(
    host: &mut H,
    file: H::File,
    given: Result<bool, HostError>,
) -> Result<H::File, StoreFail> {
    match given {
        Ok(true) => Ok(file),
        Ok(false) => {
            host.close(file);
            Err(StoreFail::Failed)
        }
        Err(e) => {
            host.close(file);
            Err(StoreFail::from(e))
        }
    }
}

/// Asks for the lock of a file or a folder that is open so often, and answers whether it was given.
fn tried<H: Host>(host: &mut H, file: &H::File, is_alone: bool) -> Result<bool, HostError> {
    for _ in 0..LOCK_TRIES {
        if host.try_lock(file, is_alone)? {
            return Ok(true);
        }
        pause(host);
    }
    Ok(false)
}

/// The turn to ask for the table's lock, held until it is closed. Where there is no such folder, or it can't be locked,
/// one asks without a turn.
fn turn<H: Host>(host: &mut H, folder: &str) -> Option<H::File> {
    let Ok(Some(Kind::Folder)) = kind_at(host, folder) else {
        return None;
    };
    let Ok(file) = host.open(folder) else {
        return None;
    };
    match tried(host, &file, true) {
        Ok(true) => Some(file),
        _ => {
            host.close(file);
            None
        }
    }
}

/// The lock file, opened for reading where it is there, so that who may only read can lock it too. One that is made
/// follows no link.
fn lock_file<H: Host>(host: &mut H, path: &str) -> Result<H::File, StoreFail> {
    for _ in 0..FILE_TRIES {
        if let Some(file) = open_file(host, path)? {
            return Ok(file);
        }
        match host.make(path) {
            Ok(file) => return Ok(file),
            Err(HostError::AlreadyExists) => {}
            Err(e) => return Err(StoreFail::from(e)),
        }
    }
    Err(StoreFail::Failed)
}

/// Lets some time pass between two tries.
fn pause<H: Host>(host: &mut H) {
    let Ok(begun) = host.monotonic() else {
        return;
    };
    for _ in 0..LOOKS {
        spin();
        match host.monotonic() {
            Ok(now) if now.saturating_sub(begun).as_micros() < TRY_MICROS => {}
            _ => return,
        }
    }
}

/// Has the processor pause.
fn spin() {
    for _ in 0..PAUSES {
        hint::spin_loop();
    }
}
