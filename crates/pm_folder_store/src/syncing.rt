//! Which folders have their names on the disk. A folder's time of change tells whether it has to be synced.

ghost use Rattle.std.specs.Prelude.{◌≡◌, IfErr};

use crate::host::{Host, HostError};
use crate::look::is_absent;
use crate::paths::folder_of;
use pm_store::StoreFail;
use std::alloc::Global;
use std::collections::BTreeMap;
use std::time::Duration;

/// How old a folder's last change has to be, in milliseconds, before its time tells it from a later one.
const SETTLED_MILLIS: u128 = 1000;

/// The times of change at which this process has seen folders synced.
pub(crate) struct Synced {
    times: BTreeMap<String, Duration>,
}

impl Drop for Synced {
    fn drop(self) {
        let Synced { times } = self;
    }
}

impl Synced {
    /// No folder.
    pub(crate) fn new(alloc: Global) -> Synced {
        Synced {
            times: BTreeMap::new(alloc),
        }
    }

    /// Has the names in a folder on the disk, after a change in it. It can't be out of memory any more.
    pub(crate) fn sync<H: Host>(
        &mut self,
        alloc: Global,
        host: &mut H,
        folder: &str,
    ) -> Result<(), StoreFail>
        ensures { IfErr result (λ fail. fail ≡ StoreFail.Failed) }
    {
        match self.sync_names(alloc, host, folder) {
            Ok(()) => Ok(()),
            Err(_) => Err(StoreFail::Failed),
        }
    }

    /// Has the names in a folder on the disk, and keeps the time of its last change where that tells it from a later
    /// one. The clock is read first, so that any later change comes after it.
    pub(crate) fn sync_names<H: Host>(
        &mut self,
        alloc: Global,
        host: &mut H,
        folder: &str,
    ) -> Result<(), HostError> {
        let now = host.since_1970();
        let changed = host.look_through(folder)?.changed;
        sync_folder(host, folder)?;
        if now.is_ok_and(|now| is_settled(now, changed)) {
            let _ = self.times.insert(String::from_str(alloc, folder)?, changed);
        }
        Ok(())
    }

    /// Has the names in a folder on the disk where it changed since this process last synced it; of a folder that isn't
    /// there any more, those in the nearest one above it, up to the root.
    pub(crate) fn settle<H: Host>(
        &mut self,
        alloc: Global,
        host: &mut H,
        root: &str,
        folder: &str,
    ) -> Result<(), StoreFail> {
        let mut nearest = folder;
        for _ in 0..folder.len() {
            match self.settle_names(alloc, host, nearest) {
                Ok(()) => return Ok(()),
                Err(e) if is_absent(e) && nearest.len() > root.len() => {
                    nearest = folder_of(nearest);
                }
                Err(e) if is_absent(e) => return Ok(()),
                Err(e) => return Err(StoreFail::from(e)),
            }
        }
        Ok(())
    }

    /// Syncs a folder, unless this process has synced it since it last changed.
    fn settle_names<H: Host>(
        &mut self,
        alloc: Global,
        host: &mut H,
        folder: &str,
    ) -> Result<(), HostError> {
        let changed = host.look_through(folder)?.changed;
        if self.times.get(folder) == Some(&changed) {
            return Ok(());
        }
        self.sync_names(alloc, host, folder)
    }
}

/// Syncs a folder. Where the file system can't sync one, or can't be written, nothing is pending in it.
fn sync_folder<H: Host>(host: &mut H, folder: &str) -> Result<(), HostError> {
    let file = host.open(folder)?;
    let synced = host.sync(&file);
    host.close(file);
    match synced {
        Err(e) if !is_never_pending(e) => Err(e),
        _ => Ok(()),
    }
}

/// Whether a sync's error says that nothing can be pending: EINVAL or EROFS.
fn is_never_pending(error: HostError) -> bool {
    matches!(
        error,
        HostError::InvalidInput | HostError::ReadOnlyFilesystem
    )
}

/// Whether a time lies so far back that a change from now on has another one.
fn is_settled(now: Duration, changed: Duration) -> bool {
    now.saturating_sub(changed).as_millis() >= SETTLED_MILLIS
}
