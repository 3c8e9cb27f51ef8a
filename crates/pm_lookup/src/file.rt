//! A file in which keys may be looked for.

ghost use Rattle.std.specs.Prelude.{◌≡◌, IfErr, OnOk};
ghost use Rattle.pm_lookup.specs.File.{IsFileFor, LooksIn, RefusesFile, may_hold, seen};
ghost use Rattle.pm_run.specs.Reader.{UnlessMemory};
ghost use Rattle.pm_schema.specs.declared.schema.TableSchema.{TableSchema};

use crate::open_file::OpenFile;
use pm_base::{Blob, Txt};
use pm_run_reader::RunReader;
use pm_schema::TableSchema;
use pm_values::{FileMeta, Key, Refusal, Stamped};
use std::alloc::Global;
use std::cmp::Ordering;
use std::mem;

/// The bytes of a file, once it was opened with their reader. They are gone where it wasn't opened.
#[derive(Drop)]
pub(crate) enum FileBytes {
    Closed(Blob),
    Open(OpenFile),
    Gone,
}

/// A file with its path and what is known of it.
pub(crate) struct LookedFile {
    pub(crate) path: Txt,
    pub(crate) meta: FileMeta,
    pub(crate) bytes: FileBytes,
}

impl Drop for LookedFile {
    fn drop(self) {
        let LookedFile { path, meta, bytes } = self;
    }
}

impl LookedFile {
    /// Whether the file's range holds the key.
    pub(crate) fn may_hold(&self, key: &Key) -> bool
        ensures { result ≡ may_hold key.now self.now.meta }
    {
        self.meta.min_key.cmp(key) != Ordering::Greater
            && key.cmp(&self.meta.max_key) != Ordering::Greater
    }

    /// The row of a key, where the file has one. The file is opened once.
    pub(crate) fn find(
        &mut self,
        alloc: Global,
        schema: &TableSchema,
        key: &Key,
    ) -> Result<Option<Stamped>, Refusal>
        requires { IsFileFor schema.now self.old }
        ensures same { OnOk result (seen self.new ≡ seen self.old) }
        ensures opened { IsFileFor schema.now self.new }
        ensures looks { LooksIn schema.now (seen self.old) key.now result }
    {
        self.open(alloc, schema)?;
        match &mut self.bytes {
            FileBytes::Open(file) => file.find(alloc, key),
            FileBytes::Closed(_) => Err(Refusal::Memory),
            FileBytes::Gone => Err(Refusal::Memory),
        }
    }

    /// Lets the block in hand go, if there is one: for keys that rise no key is left that the file may have.
    pub(crate) fn let_go(&mut self)
        ensures same { seen self.new ≡ seen self.old }
        ensures opened { (s : TableSchema) → IsFileFor s self.old → IsFileFor s self.new }
    {
        if let FileBytes::Open(file) = &mut self.bytes {
            file.let_go();
        }
    }

    /// Opens the file, if it wasn't.
    fn open(&mut self, alloc: Global, schema: &TableSchema) -> Result<(), Refusal>
        requires { IsFileFor schema.now self.old }
        ensures same { OnOk result (seen self.new ≡ seen self.old) }
        ensures opened { IsFileFor schema.now self.new }
        ensures refuses { IfErr result (λ e. UnlessMemory e (RefusesFile schema.now (seen self.old) e)) }
    {
        match mem::replace(&mut self.bytes, FileBytes::Gone) {
            FileBytes::Closed(bytes) => {
                let path = self.path.as_str();
                let id = self.meta.schema_id;
                let reader = RunReader::open(alloc, path, schema, id, bytes, false)?;
                self.bytes = FileBytes::Open(OpenFile::new(reader));
                Ok(())
            }
            FileBytes::Open(file) => {
                self.bytes = FileBytes::Open(file);
                Ok(())
            }
            FileBytes::Gone => Err(Refusal::Memory),
        }
    }
}
