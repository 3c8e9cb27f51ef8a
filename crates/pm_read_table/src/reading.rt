//! A snapshot whose manifests are read one after another.

use crate::asked::Sought;
use indexmap::IndexMap;
use pm_avro_file::KnownType;
use pm_manifest::{Entry, FileId, ManifestMeta};
use pm_snapshot::Snapshot;
use std::collections::VecDeque;
use std::marker::Model;

/// What was asked, the snapshot, the manifests that were read, the one to be read next, those after it, the live files
/// after the entries of the first, and these entries where they are kept. The type of the records of the last manifest
/// that was read is known, and isn't seen.
#[derive(Drop)]
pub struct Reading {
    pub(crate) sought: Sought,
    pub(crate) snapshot: Snapshot,
    pub(crate) done: Vec<ManifestMeta>,
    pub(crate) next: ManifestMeta,
    pub(crate) rest: VecDeque<ManifestMeta>,
    pub(crate) live: IndexMap<FileId, Entry>,
    pub(crate) kept: Vec<Entry>,
    pub(crate) known: Option<KnownType>,
}

impl Model for Reading {
    ghost use Rattle.pm_read_table.specs.Reading.{reading_of, IsReading, ReadingView};

    ghost Value = { ReadingView };

    ghost view = { λ r. reading_of r.sought r.snapshot r.done.items r.next r.rest.items r.live.entries r.kept.items };

    ghost invariant = { λ r. IsReading
        (reading_of r.sought r.snapshot r.done.items r.next r.rest.items r.live.entries r.kept.items) };
}
