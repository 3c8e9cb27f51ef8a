//! The manifests of a commit, and the lists of them.

ghost use Rattle.std.specs.Prelude.{◌≡◌, ◌≤◌, ◌<◌, ◌^◌, ◌+◌, List, ◌++◌, length, filter, true, IfOk, OnOk, IfErr};
ghost use Rattle.pm_values.specs.Names.{counted};
ghost use Rattle.pm_values.specs.declared.refusal.Refusal.TheVariants.{Memory};
ghost use Rattle.pm_manifest.specs.declared.entry.Entry.{Entry as EntryView};
ghost use Rattle.pm_made.specs.Files.{merges, AreLists, AreManifests, HasChangesList, HasManifest, IsNewList};
ghost use Rattle.pm_made.specs.Files.{IsNewManifest};
ghost use Rattle.pm_put.specs.declared.putting.CommitFile.{CommitFile as FileView};

use crate::newest::Newest;
use crate::snapshot::ListNames;
use pm_base::{Blob, Txt};
use pm_manifest::{Entry, ManifestMeta};
use pm_manifest_writer::{write_list, write_manifest};
use pm_paths::manifest_path;
use pm_put::CommitFile;
use pm_schema::TableSchema;
use pm_values::{Names, Refusal};
use std::alloc::Global;

/// A manifest that isn't in the store yet: what lists have of it, and its file.
#[derive(Drop)]
pub(crate) struct NewManifest {
    pub(crate) meta: ManifestMeta,
    pub(crate) file: CommitFile,
}

/// A list that isn't in the store yet: its name, and its file.
#[derive(Drop)]
pub(crate) struct NewList {
    pub(crate) name: Txt,
    pub(crate) file: CommitFile,
}

/// Whether the newest snapshot has so many manifests that they are merged.
pub(crate) fn merges(schema: &TableSchema, metas: &[ManifestMeta]) -> bool
    ensures { result ≡ merges schema.now metas.now }
{
    schema.options.merge_min as usize <= metas.len()
}

/// A manifest of these entries, with the next name.
pub(crate) fn new_manifest(
    alloc: Global,
    schema: &TableSchema,
    entries: &[Entry],
    names: &mut Names,
) -> Result<NewManifest, Refusal>
    requires { names.old.count < 2 ^ 63 }
    ensures made { IfOk result (λ m. IsNewManifest schema.now names.old entries.now m.meta m.file) }
    ensures names { OnOk result (names.new ≡ counted names.old) }
    ensures same { names.new ≡ record names.old { count = names.new.count } }
    ensures rises { names.old.count ≤ names.new.count }
    ensures memory { IfErr result (λ e. e ≡ Memory) }
{
    let name = names.take(alloc, "manifest-", "")?;
    let bytes = write_manifest(alloc, schema, entries, names.session())?;
    let added = count_added(entries);
    let path = manifest_path(alloc, &name)?;
    Ok(NewManifest {
        meta: ManifestMeta {
            name,
            size: bytes.len() as u64,
            added: added as u64,
            deleted: (entries.len() - added) as u64,
            schema_id: schema.id,
        },
        file: CommitFile {
            path,
            bytes: Blob::new(bytes),
        },
    })
}

/// How many entries add a file.
fn count_added(entries: &[Entry]) -> usize
    ensures exact { result ≡ length (filter (λ (e : EntryView). e.add) entries.now) }
    ensures within { result ≤ length entries.now }
{
    let mut count = 0;
    for entry in entries {
        if entry.add {
            count += 1;
        }
    }
    count
}

/// A list of these manifests, with the next name.
pub(crate) fn new_list(
    alloc: Global,
    schema: &TableSchema,
    metas: &[ManifestMeta],
    names: &mut Names,
) -> Result<NewList, Refusal>
    requires { names.old.count < 2 ^ 63 }
    ensures made { IfOk result (λ l. IsNewList schema.now names.old metas.now l.name l.file) }
    ensures names { OnOk result (names.new ≡ counted names.old) }
    ensures same { names.new ≡ record names.old { count = names.new.count } }
    ensures rises { names.old.count ≤ names.new.count }
    ensures memory { IfErr result (λ e. e ≡ Memory) }
{
    let name = names.take(alloc, "manifest-list-", "")?;
    let bytes = write_list(alloc, schema, metas, names.session())?;
    let path = manifest_path(alloc, &name)?;
    Ok(NewList {
        name,
        file: CommitFile {
            path,
            bytes: Blob::new(bytes),
        },
    })
}

/// The manifest of these entries, with the next name, or none where there is no entry; its file goes to the others.
pub(crate) fn manifest_of(
    alloc: Global,
    schema: &TableSchema,
    entries: &[Entry],
    names: &mut Names,
    files: &mut Vec<CommitFile>,
) -> Result<Vec<ManifestMeta>, Refusal>
    requires { names.old.count < 2 ^ 63 }
    ensures made { IfOk result (λ metas. (own : List FileView)
        × HasManifest schema.now names.old entries.now metas.items own names.new
        × (files.new.items ≡ files.old.items ++ own)) }
    ensures names { names.new ≡ record names.old { count = names.new.count } }
    ensures rises { names.old.count ≤ names.new.count }
    ensures counted { OnOk result (names.new.count ≤ names.old.count + 1) }
    ensures each { OnOk result (names.new.count + length files.old.items ≡ names.old.count + length files.new.items) }
    ensures memory { IfErr result (λ e. e ≡ Memory) }
{
    let mut metas = Vec::new(alloc);
    if entries.is_empty() {
        return Ok(metas);
    }
    let NewManifest { meta, file } = new_manifest(alloc, schema, entries, names)?;
    files.push(file)?;
    metas.push(meta)?;
    Ok(metas)
}

/// The changelog list, with the next name, where there are manifests for it; its file goes to the others.
fn changes_list(
    alloc: Global,
    schema: &TableSchema,
    metas: &[ManifestMeta],
    names: &mut Names,
    files: &mut Vec<CommitFile>,
) -> Result<Option<Txt>, Refusal>
    requires { names.old.count < 2 ^ 63 }
    ensures made { IfOk result (λ name. (own : List FileView)
        × HasChangesList schema.now names.old metas.now name own names.new
        × (files.new.items ≡ files.old.items ++ own)) }
    ensures names { names.new ≡ record names.old { count = names.new.count } }
    ensures rises { names.old.count ≤ names.new.count }
    ensures counted { OnOk result (names.new.count ≤ names.old.count + 1) }
    ensures each { OnOk result (names.new.count + length files.old.items ≡ names.old.count + length files.new.items) }
    ensures memory { IfErr result (λ e. e ≡ Memory) }
{
    if metas.is_empty() {
        return Ok(None);
    }
    let NewList { name, file } = new_list(alloc, schema, metas, names)?;
    files.push(file)?;
    Ok(Some(name))
}

/// The manifests of a delta's entries and of its changelog files, the lists of them, and the base list of these
/// manifests; their files go to the others.
fn new_lists(
    alloc: Global,
    schema: &TableSchema,
    entries: &[Entry],
    changes: &[Entry],
    base: &[ManifestMeta],
    names: &mut Names,
    files: &mut Vec<CommitFile>,
) -> Result<ListNames, Refusal>
    requires { names.old.count + 5 ≤ 2 ^ 63 }
    ensures lists { IfOk result (λ lists. (own : List FileView)
        × AreLists schema.now names.old entries.now changes.now base.now lists own
        × (files.new.items ≡ files.old.items ++ own)) }
    ensures names { names.new ≡ record names.old { count = names.new.count } }
    ensures rises { names.old.count ≤ names.new.count }
    ensures counted { OnOk result (names.new.count ≤ names.old.count + 5) }
    ensures each { OnOk result (names.new.count + length files.old.items ≡ names.old.count + length files.new.items) }
    ensures memory { IfErr result (λ e. e ≡ Memory) }
{
    let delta_metas = manifest_of(alloc, schema, entries, names, files)?;
    let changes_metas = manifest_of(alloc, schema, changes, names, files)?;
    let NewList { name: delta, file } = new_list(alloc, schema, &delta_metas, names)?;
    files.push(file)?;
    let changes = changes_list(alloc, schema, &changes_metas, names, files)?;
    let NewList { name: base, file } = new_list(alloc, schema, base, names)?;
    files.push(file)?;
    Ok(ListNames {
        base,
        delta,
        changes,
    })
}

/// All manifests and lists of a commit whose delta has these entries and changelog files; their files go to the others.
pub(crate) fn all_lists(
    alloc: Global,
    schema: &TableSchema,
    newest: &Newest,
    entries: &[Entry],
    changes: &[Entry],
    names: &mut Names,
    files: &mut Vec<CommitFile>,
) -> Result<ListNames, Refusal>
    requires { names.old.count + 6 ≤ 2 ^ 63 }
    ensures lists { IfOk result (λ lists. (own : List FileView)
        × AreManifests schema.now newest.now names.old entries.now changes.now lists own
        × (files.new.items ≡ files.old.items ++ own)) }
    ensures names { names.new ≡ record names.old { count = names.new.count } }
    ensures rises { names.old.count ≤ names.new.count }
    ensures counted { OnOk result (names.new.count ≤ names.old.count + 6) }
    ensures each { OnOk result (names.new.count + length files.old.items ≡ names.old.count + length files.new.items) }
    ensures memory { IfErr result (λ e. e ≡ Memory) }
{
    if merges(schema, &newest.manifests) {
        let base = manifest_of(alloc, schema, &newest.live, names, files)?;
        new_lists(alloc, schema, entries, changes, &base, names, files)
    } else {
        new_lists(
            alloc,
            schema,
            entries,
            changes,
            &newest.manifests,
            names,
            files,
        )
    }
}
