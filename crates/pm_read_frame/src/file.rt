//! Changelog files in the order in which they are read.

ghost use Rattle.std.specs.Prelude.{◌≡◌, ◌⊎◌, ◌≤◌, IfErr, IfOk, length};
ghost use Rattle.pm_read_table.specs.Reader.{most};
ghost use Rattle.pm_read_table.specs.View.{HaveGroups};
ghost use Rattle.pm_schema.specs.Folder.{FitsPartition};
ghost use Rattle.pm_values.specs.declared.refusal.Refusal.TheVariants as refusals;
ghost use Rattle.pm_read_frame.specs.Taken.{IsReadAs, RefusesFile, file_of, files_of};

use pm_base::{Blob, Txt};
use pm_manifest::Entry;
use pm_model_contents::data_path;
use pm_run_reader::RunReader;
use pm_scan_rows::StoredRun;
use pm_schema::TableSchema;
use pm_values::Refusal;
use std::alloc::{AllocError, Global};
use std::collections::VecDeque;

/// A changelog file that is to be read: its path, and the id of the schema that it was written with.
#[derive(Drop)]
pub struct ChangesFile {
    pub(crate) path: Txt,
    pub(crate) schema_id: u64,
}

/// The files of a changelog's entries, in their order.
pub(crate) fn files_of(
    alloc: Global,
    schema: &TableSchema,
    changes: &[Entry],
) -> Result<VecDeque<ChangesFile>, AllocError>
    requires { HaveGroups schema.now changes.now }
    ensures files { IfOk result (λ files. files.items ≡ files_of schema.now changes.now) }
    ensures within { IfOk result (λ files. length files.items ≤ most) }
{
    let mut files = Vec::new(alloc);
    for entry in changes {
        files.push(file_of(alloc, schema, entry)?)?;
    }
    Ok(VecDeque::from(files))
}

/// The file of an entry.
fn file_of(alloc: Global, schema: &TableSchema, entry: &Entry) -> Result<ChangesFile, AllocError>
    requires { FitsPartition schema.now entry.now.group }
    ensures { IfOk result (λ file. file ≡ file_of schema.now entry.now) }
{
    Ok(ChangesFile {
        path: data_path(alloc, schema, &entry.group, &entry.file.name)?,
        schema_id: entry.file.schema_id,
    })
}

/// The rows of a file that has these bytes: all of them are judged. Refusals are those of `RunReader`.
pub(crate) fn rows_of(
    alloc: Global,
    schema: &TableSchema,
    file: &ChangesFile,
    bytes: Blob,
) -> Result<StoredRun, Refusal>
    ensures reads { IfOk result (λ run. IsReadAs schema.now file.now bytes run) }
    ensures refuses { IfErr result (λ e. (e ≡ refusals.Memory) ⊎ RefusesFile schema.now file.now bytes e) }
{
    let reader = RunReader::open(
        alloc,
        file.path.as_str(),
        schema,
        file.schema_id,
        bytes,
        true,
    )?;
    let mut run = StoredRun::new(alloc);
    run.append(alloc, reader)?;
    Ok(run)
}
