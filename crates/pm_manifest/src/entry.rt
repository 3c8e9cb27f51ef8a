//! What a manifest list and a manifest list.

ghost use Rattle.std.specs.Prelude.{◌≡◌, IfOk};
ghost use Rattle.pm_manifest.specs.Live.{id_of};

use crate::file_id::FileId;
use pm_base::Txt;
use pm_values::{FileMeta, Group};
use std::alloc::{AllocError, Global};

/// A manifest, as manifest lists have it.
pub struct ManifestMeta {
    /// Its name in the folder of manifests.
    pub name: Txt,
    /// Its length in bytes.
    pub size: u64,
    /// How many of its entries add a file.
    pub added: u64,
    /// How many of its entries delete one.
    pub deleted: u64,
    /// The id of the table's schema that it was written with.
    pub schema_id: u64,
}

impl Drop for ManifestMeta {
    fn drop(self) {
        let ManifestMeta {
            name,
            size,
            added,
            deleted,
            schema_id,
        } = self;
    }
}

impl ManifestMeta {
    /// An equal record.
    pub fn copy(&self, alloc: Global) -> Result<ManifestMeta, AllocError>
        ensures { IfOk result (λ m. m ≡ self.now) }
    {
        Ok(ManifestMeta {
            name: self.name.copy(alloc)?,
            size: self.size,
            added: self.added,
            deleted: self.deleted,
            schema_id: self.schema_id,
        })
    }
}

/// An entry of a manifest: a file came, or it went.
#[derive(Drop)]
pub struct Entry {
    /// Whether the file came (`ADD`), else it went (`DELETE`).
    pub add: bool,
    /// The group that the file is of.
    pub group: Group,
    /// How many buckets the table has.
    pub buckets: u32,
    /// The file.
    pub file: FileMeta,
}

impl Entry {
    /// An equal entry.
    pub fn copy(&self, alloc: Global) -> Result<Entry, AllocError>
        ensures { IfOk result (λ e. e ≡ self.now) }
    {
        Ok(Entry {
            add: self.add,
            group: self.group.copy(alloc)?,
            buckets: self.buckets,
            file: self.file.copy(alloc)?,
        })
    }

    /// Which file the entry is of.
    pub fn id(&self, alloc: Global) -> Result<FileId, AllocError>
        ensures { IfOk result (λ id. id ≡ id_of self.now) }
    {
        Ok(FileId {
            group: self.group.copy(alloc)?,
            name: self.file.name.copy(alloc)?,
            level: self.file.level,
        })
    }
}
