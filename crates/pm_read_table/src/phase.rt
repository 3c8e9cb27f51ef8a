//! How far the reading of a view has come.

use crate::asked::{Asked, Sought};
use crate::reading::Reading;
use crate::view::View;
use pm_base::Txt;
use pm_manifest::ManifestMeta;
use pm_snapshot::Snapshot;

/// How far the reading has come: the next call lists the snapshots; or reads the origin, or the snapshot with that id;
/// or its base list, or its delta list, or the next of the manifests that these have; or reads the snapshot again,
/// since the file at that path is absent; or the view is ready; or the reading ended before that.
#[derive(Drop)]
pub enum Phase {
    List {
        asked: Asked,
    },
    Origin {
        sought: Sought,
    },
    Snapshot {
        sought: Sought,
        id: u64,
    },
    Base {
        sought: Sought,
        snapshot: Snapshot,
    },
    Delta {
        sought: Sought,
        snapshot: Snapshot,
        base: Vec<ManifestMeta>,
    },
    Manifests {
        reading: Reading,
    },
    Again {
        asked: Asked,
        id: u64,
        path: Txt,
    },
    Ready {
        view: View,
    },
    Over,
}
