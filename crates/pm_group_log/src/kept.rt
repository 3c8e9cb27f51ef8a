//! The runs of a group that stay, with the bytes of their files.

ghost use Rattle.std.specs.Prelude.{◌≡◌, IfOk, OnOk, drop, length, map};
ghost use Rattle.pm_values.specs.declared.group.Group.{Group as GroupView};
ghost use Rattle.pm_schema.specs.declared.schema.TableSchema.{TableSchema as SchemaView};
ghost use Rattle.pm_levels.specs.Runs as levels;
ghost use Rattle.pm_lookup.specs.Lookup.{file_in, files_of};
ghost use Rattle.pm_choice.specs.Choice.{left_runs};
ghost use Rattle.pm_schema.specs.Folder.{FitsPartition, folder_text};
ghost use Rattle.pm_group_log.specs.Told.{files_with};

use pm_base::Blob;
use pm_choice::ChosenGroup;
use pm_run::RunBytes;
use pm_schema::{TableSchema, folder_of};
use pm_values::FileMeta;
use std::alloc::{AllocError, Global};
use std::collections::VecDeque;

/// The runs of a chosen group that stay, newest first, with the bytes of their files, as far as these go.
pub(crate) fn runs_with(
    alloc: Global,
    schema: &TableSchema,
    chosen: &ChosenGroup,
    kept: Vec<Blob>,
) -> Result<Vec<RunBytes>, AllocError>
    requires { FitsPartition schema.now chosen.now.group }
    ensures { IfOk result (λ runs. files_of runs.items
        ≡ files_with schema.now chosen.now.group (levels.files_of (left_runs chosen.now)) kept.items) }
{
    let mut bytes = VecDeque::from(kept);
    let mut runs = Vec::new(alloc);
    let stay = chosen.left();
    for run in stay {
        let folder = folder_of(alloc, schema, &chosen.group)?;
        let files = with_bytes(alloc, run.files.as_slice(), &mut bytes)?;
        runs.push(RunBytes {
            folder,
            level: run.level,
            files,
        })?;
    }
    drop(bytes);
    Ok(runs)
}

/// Files with the first of these bytes, as far as they go; the others are left.
fn with_bytes(
    alloc: Global,
    files: &[FileMeta],
    bytes: &mut VecDeque<Blob>,
) -> Result<Vec<(FileMeta, Blob)>, AllocError>
    ensures files { IfOk result (λ paired. (s : SchemaView) (g : GroupView)
        → map (file_in (folder_text s g)) paired.items ≡ files_with s g files.now bytes.old.items) }
    ensures left { OnOk result (bytes.new.items ≡ drop (length files.now) bytes.old.items) }
{
    let mut paired = Vec::new(alloc);
    for file in files {
        let Some(own) = bytes.pop_front() else {
            return Ok(paired);
        };
        paired.push((file.copy(alloc)?, own))?;
    }
    Ok(paired)
}
