//! How far the reading of a changelog has come.

use crate::log::{Log, LogAsked, LogReading};
use pm_base::Txt;
use pm_snapshot::Snapshot;

/// How far the reading has come: the next call reads the snapshot; or its changelog list, which has that name, or the
/// next of the manifests that this has; or reads the snapshot again, since the file at that path is absent; or the
/// changelog is ready; or the reading ended before that.
#[derive(Drop)]
pub enum LogPhase {
    Snapshot {
        asked: LogAsked,
    },
    List {
        asked: LogAsked,
        snapshot: Snapshot,
        list: Txt,
    },
    Manifests {
        reading: LogReading,
    },
    Again {
        asked: LogAsked,
        path: Txt,
    },
    Ready {
        log: Log,
    },
    Over,
}
