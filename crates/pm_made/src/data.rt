//! What a try changes, as entries of manifests, and the files of rows that it creates for that.

ghost use Rattle.std.specs.Prelude.{◌≡◌, ◌⊎◌, ◌≤◌, ◌+◌, ◌^◌, ◌++◌, [], ◌∷◌, length, map, true, false};
ghost use Rattle.std.specs.Prelude.{IfOk, IfErr, OnOk};
ghost use Rattle.std.specs.List.{AllByRecursion};
ghost use Rattle.pm_values.specs.declared.refusal.Refusal.TheVariants.{Memory};
ghost use Rattle.pm_schema.specs.Folder.{FitsPartition};
ghost use Rattle.pm_manifest.specs.declared.entry.Entry.{Entry as EntryView};
ghost use Rattle.pm_run.specs.Row.{most_sequence};
ghost use Rattle.pm_write.specs.Batch.{logs_in};
ghost use Rattle.pm_write.specs.Files.{no_sequence};
ghost use Rattle.pm_write.specs.declared.files.NewFile.{NewFile as FileView};
ghost use Rattle.pm_made.specs.Delta.{Delta, added_entry, adding, deleted, IsDeltaOf};
ghost use Rattle.pm_made.specs.Files.{changes_of, data_file, data_of, HasDelta};
ghost use Rattle.pm_made.specs.Intent.{batch_of, removed_of, FitsGroups, IsMadeFor};
ghost use Rattle.pm_made.specs.Refusals.{above_numbers};

use crate::intent::{Intent, Plan};
use crate::newest::Newest;
use crate::numbers::number_files;
use pm_manifest::Entry;
use pm_model_contents::data_path;
use pm_put::CommitFile;
use pm_schema::TableSchema;
use pm_values::{Names, Refusal};
use pm_write::NewFile;
use std::alloc::{AllocError, Global};

/// The entries of a delta and of its changelog files, and the files of rows that are created for it.
#[derive(Drop)]
pub(crate) struct NewDelta {
    /// Those that take files away come first.
    pub(crate) entries: Vec<Entry>,
    pub(crate) changes: Vec<Entry>,
    pub(crate) files: Vec<CommitFile>,
}

/// What a try changes. An append's batch is written anew, with the next names; a compaction's files are there already.
pub(crate) fn new_delta(
    alloc: Global,
    schema: &TableSchema,
    newest: &Newest,
    intent: &mut Intent,
    names: &mut Names,
) -> Result<NewDelta, Refusal>
    requires folders { FitsGroups schema.now intent.old }
    requires numbers { AllByRecursion (λ (e : EntryView). e.file.max_seq ≤ most_sequence) newest.now.live.items }
    requires made_for { IsMadeFor intent.old }
    requires count { names.old.count + (length (batch_of intent.old) + length (logs_in (batch_of intent.old)))
        ≤ 2 ^ 62 }
    ensures delta { IfOk result (λ x. (d : Delta)
        × HasDelta schema.now newest.now names.old intent.old d x.files.items names.new
        × IsDeltaOf (removed_of intent.old) x.entries.items x.changes.items d) }
    ensures ok { OnOk result (above_numbers newest.now.live.items (batch_of intent.old) ≡ false) }
    ensures err { IfErr result (λ e. (e ≡ Memory)
        ⊎ ((above_numbers newest.now.live.items (batch_of intent.old) ≡ true) × (e ≡ no_sequence))) }
    ensures kept { intent.new ≡ intent.old }
    ensures names { names.new ≡ record names.old { count = names.new.count } }
    ensures rises { names.old.count ≤ names.new.count }
    ensures room { OnOk result (names.new.count
        ≤ names.old.count + (length (batch_of intent.old) + length (logs_in (batch_of intent.old)))) }
    ensures counted { IfOk result (λ x. names.new.count ≡ names.old.count + length x.files.items) }
{
    match intent {
        Intent::Append { batch } => {
            let new_files = number_files(alloc, schema, &newest.live, batch, names)?;
            Ok(delta_of_files(alloc, schema, new_files)?)
        }
        Intent::Compact { plan } => Ok(delta_of_plan(alloc, plan)?),
        Intent::Fence { .. } => unreachable!(),
    }
}

// ---- of an append

/// What new files change.
fn delta_of_files(
    alloc: Global,
    schema: &TableSchema,
    new_files: Vec<NewFile>,
) -> Result<NewDelta, AllocError>
    requires { AllByRecursion (λ (x : FileView). FitsPartition schema.now x.group) new_files.items }
    ensures entries { IfOk result (λ d. d.entries.items ≡ map (added_entry schema.now) (data_of new_files.items)) }
    ensures changes { IfOk result (λ d. d.changes.items ≡ map (added_entry schema.now) (changes_of new_files.items)) }
    ensures files { IfOk result (λ d. d.files.items ≡ map (data_file schema.now) new_files.items) }
{
    let mut entries = Vec::with_capacity(alloc, new_files.len())?;
    let mut changes = Vec::new(alloc);
    let mut files = Vec::new(alloc);
    for file in new_files {
        if file.changelog {
            put_file(alloc, schema, file, &mut changes, &mut files)?;
        } else {
            put_file(alloc, schema, file, &mut entries, &mut files)?;
        }
    }
    Ok(NewDelta {
        entries,
        changes,
        files,
    })
}

/// Puts a file of rows and its entry to the others.
fn put_file(
    alloc: Global,
    schema: &TableSchema,
    file: NewFile,
    entries: &mut Vec<Entry>,
    files: &mut Vec<CommitFile>,
) -> Result<(), AllocError>
    requires { FitsPartition schema.now file.group }
    ensures entries { OnOk result (entries.new.items ≡ entries.old.items ++ added_entry schema.now file ∷ []) }
    ensures files { OnOk result (files.new.items ≡ files.old.items ++ data_file schema.now file ∷ []) }
{
    let NewFile {
        group,
        meta,
        changelog: _,
        bytes,
    } = file;
    let path = data_path(alloc, schema, &group, &meta.name)?;
    files.push(CommitFile { path, bytes })?;
    entries.push(Entry {
        add: true,
        group,
        buckets: schema.options.bucket,
        file: meta,
    })?;
    Ok(())
}

// ---- of a compaction

/// What a compaction changes. Its files are there already.
fn delta_of_plan(alloc: Global, plan: &Plan) -> Result<NewDelta, AllocError>
    ensures entries { IfOk result (λ d.
        d.entries.items ≡ map deleted plan.now.removed.items ++ map adding plan.now.added.items) }
    ensures changes { IfOk result (λ d. d.changes.items ≡ map adding plan.now.changes.items) }
    ensures files { IfOk result (λ d. d.files.items ≡ []) }
{
    let mut entries = Vec::new(alloc);
    copy_all(alloc, &plan.removed, false, &mut entries)?;
    copy_all(alloc, &plan.added, true, &mut entries)?;
    let mut changes = Vec::new(alloc);
    copy_all(alloc, &plan.changes, true, &mut changes)?;
    Ok(NewDelta {
        entries,
        changes,
        files: Vec::new(alloc),
    })
}

/// Puts copies of entries to the others, which add their files or take them away.
fn copy_all(
    alloc: Global,
    given: &[Entry],
    add: bool,
    entries: &mut Vec<Entry>,
) -> Result<(), AllocError>
    ensures { OnOk result (entries.new.items
        ≡ entries.old.items ++ map (λ (e : EntryView). record e { add = add }) given.now) }
{
    for entry in given {
        let mut copy = entry.copy(alloc)?;
        copy.add = add;
        entries.push(copy)?;
    }
    Ok(())
}
