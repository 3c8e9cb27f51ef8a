//! Seals of folders. A seal says to every process that under each shown name in a folder stands a file, and that these
//! names are on the disk, but for a folder whose files are named elsewhere. It is an empty file in the table's own
//! folder, whose name has the folder's device, its inode, the time of its last change, and the time at which anything
//! about it changed, which nobody can set.
//!
//! Whoever changes such a folder gives it a time of its own after the change, then has it on the disk, and then seals
//! it, all of it under the table's lock. A folder that was sealed before is sealed anew without a look, so a name that
//! comes past the store between the look before the change and the dating is under the new seal. Any change after the
//! dating ends it, also one that comes in the same tick of the file system's clock: the two times of what is dated
//! differ, and any other change of names gives a folder one time as both. What came before is on the disk, but for what
//! is owed. A writer that is killed between leaves no seal that counts, as long as no two datings give the same times.
//!
//! A folder that wasn't sealed is looked at whole once.

use crate::host::{Found, Host, HostError, Kind};
use crate::look::{is_absent, is_same, kind_at};
use crate::names::is_unreadable;
use crate::paths::{is_name, place_in, put_place};
use pm_store::StoreFail;
use std::alloc::{AllocError, Global};
use std::time::Duration;

/// How many numbers the name of a seal ends in.
const NUMBERS: usize = 6;

/// A folder that is to be changed, or was: where it stands, how the names of its seals begin, what a look found of it
/// before, and where its seal stood, if it was sealed.
#[derive(Drop)]
pub(crate) struct Before {
    place: String,
    front: String,
    found: Found,
    seal: Option<String>,
}

/// Whether a folder of the store is sealed as it is. It is asked under the lock, after the folder was read.
pub(crate) fn is_sealed<H: Host>(
    alloc: Global,
    host: &mut H,
    root: &str,
    folder: &str,
) -> Result<bool, StoreFail> {
    match before_change(alloc, host, root, folder)? {
        Some(before) => Ok(before.seal.is_some()),
        None => Ok(false),
    }
}

/// How a folder of the store is before a change; nothing where it isn't there.
pub(crate) fn before_change<H: Host>(
    alloc: Global,
    host: &mut H,
    root: &str,
    folder: &str,
) -> Result<Option<Before>, StoreFail> {
    let place = place_in(alloc, root, folder)?;
    let front = format!(in alloc; ".sealed-{folder}-")?;
    let found = match host.look(place.as_str()) {
        Ok(found) => found,
        Err(e) if is_absent(e) => return Ok(None),
        Err(e) => return Err(StoreFail::from(e)),
    };
    let seal = seal_of(alloc, root, front.as_str(), found)?;
    let seal = match kind_at(host, seal.as_str())? {
        Some(Kind::File) => Some(seal),
        _ => None,
    };
    Ok(Some(Before {
        place,
        front,
        found,
        seal,
    }))
}

/// Gives a folder that was changed a time of its own, and answers what a look finds then; nothing where that can't be
/// done, where something else was put in its place, or where the folder's two times are one, as after any other change
/// of its names.
pub(crate) fn dated<H: Host>(host: &mut H, before: &Before) -> Option<Found> {
    let Ok(now) = host.since_1970() else {
        return None;
    };
    let Ok(file) = host.open(before.place.as_str()) else {
        return None;
    };
    let dated = dated_at(host, &file, before.found, whole_micros(now));
    host.close(file);
    dated.unwrap_or(None)
}

/// The same of a folder that is open.
fn dated_at<H: Host>(
    host: &mut H,
    file: &H::File,
    before: Found,
    time: Duration,
) -> Result<Option<Found>, HostError> {
    if !is_same(host.look_at(file)?, before) {
        return Ok(None);
    }
    host.set_changed(file, time)?;
    let found = host.look_at(file)?;
    if found.changed != time || found.touched == time {
        return Ok(None);
    }
    Ok(Some(found))
}

/// A time in whole microseconds. File systems keep these, or no parts of a second at all.
fn whole_micros(time: Duration) -> Duration {
    Duration::from_micros(u64::try_from(time.as_micros()).unwrap_or(0))
}

/// Seals a folder as this look found it once it was dated. One that wasn't sealed before is looked at whole.
pub(crate) fn seal<H: Host>(
    alloc: Global,
    host: &mut H,
    root: &str,
    before: Before,
    found: Found,
) -> Result<(), StoreFail> {
    let Before {
        place,
        front,
        found: _,
        seal: old,
    } = before;
    let new = seal_of(alloc, root, front.as_str(), found)?;
    match old {
        Some(old) => {
            if host.rename(old.as_str(), new.as_str()).is_ok() {
                return Ok(());
            }
        }
        None => {
            if !has_files_alone(alloc, host, place.as_str())? {
                return Ok(());
            }
        }
    }
    take_seals(alloc, host, root, front.as_str())?;
    let file = host.make(new.as_str())?;
    host.close(file);
    Ok(())
}

/// Whether a file stands under each name that a listing of a folder may show. Where a name isn't UTF-8 none may.
fn has_files_alone<H: Host>(alloc: Global, host: &mut H, folder: &str) -> Result<bool, StoreFail> {
    let mut place = String::new(alloc);
    for name in host.names(alloc, folder)? {
        if !is_name(name.as_str()) {
            continue;
        }
        if is_unreadable(name.as_str()) {
            return Ok(false);
        }
        put_place(&mut place, folder, name.as_str())?;
        if !matches!(kind_at(host, place.as_str())?, Some(Kind::File)) {
            return Ok(false);
        }
    }
    Ok(true)
}

/// Takes each seal of a folder away, and nothing else. None of them counts any more.
fn take_seals<H: Host>(
    alloc: Global,
    host: &mut H,
    root: &str,
    front: &str,
) -> Result<(), StoreFail> {
    for name in host.names(alloc, root)? {
        if is_seal(name.as_str(), front) {
            let place = place_in(alloc, root, name.as_str())?;
            take_empty(host, place.as_str())?;
        }
    }
    Ok(())
}

/// Takes a file away that is empty, as a seal is, and nothing else.
fn take_empty<H: Host>(host: &mut H, place: &str) -> Result<(), StoreFail> {
    match host.look(place) {
        Ok(found) if matches!(found.kind, Kind::File) && found.size == 0 => {
            Ok(host.remove_file(place)?)
        }
        Ok(_) => Ok(()),
        Err(e) if is_absent(e) => Ok(()),
        Err(e) => Err(StoreFail::from(e)),
    }
}

/// Whether a name is that of one of a folder's seals, which begin so: six numbers follow, with dashes between them.
fn is_seal(name: &str, front: &str) -> bool {
    let Some(rest) = name.strip_prefix(front) else {
        return false;
    };
    let mut count = 0usize;
    for part in rest.split('-') {
        if !is_number(part) {
            return false;
        }
        count = count.saturating_add(1);
    }
    count == NUMBERS
}

/// Whether a text is a number.
fn is_number(text: &str) -> bool {
    !text.is_empty() && text.as_bytes().iter().all(|byte| byte.is_ascii_digit())
}

/// Where the seal of a folder stands that is as this look found it.
fn seal_of(alloc: Global, root: &str, front: &str, found: Found) -> Result<String, AllocError> {
    let (device, inode) = (found.device, found.inode);
    let (secs, nanos) = (found.changed.as_secs(), found.changed.subsec_nanos());
    let (then, part) = (found.touched.as_secs(), found.touched.subsec_nanos());
    format!(in alloc; "{root}/{front}{device}-{inode}-{secs}-{nanos}-{then}-{part}")
}
