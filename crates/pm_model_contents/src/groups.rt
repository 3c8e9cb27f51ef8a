//! The live files, put into groups.

ghost use Rattle.std.specs.Prelude.{◌≡◌, ◌∷◌, IsSome, IfOk, IfErr, OnOk};
ghost use Rattle.std.specs.BTreeMap.{get_by, is_at};
ghost use Rattle.std.specs.Map.{keys_of, lookup};
ghost use Rattle.std.specs.List.Sorted.{IsStrictlySortedBy};
ghost use Rattle.std.specs.Option.{option_map};
ghost use Rattle.indexmap.specs.IndexMap.{get, values, IsUnique};
ghost use Rattle.pm_values.specs.GroupOrder.{group_cmp};
ghost use Rattle.pm_values.specs.declared.group.Group.{Group as GroupView};
ghost use Rattle.pm_schema.specs.Folder.{FitsPartition};
ghost use Rattle.pm_levels.specs.Overlap.{AreDisjoint};
ghost use Rattle.pm_levels.specs.Runs.{AreRuns};
ghost use Rattle.pm_manifest.specs.FileId.{id_eq};
ghost use Rattle.pm_model_contents.specs.Groups.{AreNamed, HaveFolders, GroupRuns, Overlaps};
ghost use Rattle.pm_model_contents.specs.Groups.{files_in, some_files, with_file, grouped, HasRuns};
ghost use Rattle.pm_model_contents.specs.Groups.{RefusesFiles, RefusesGroups};
ghost use Rattle.pm_model_contents.specs.Runs.{data_path};

use indexmap::IndexMap;
use pm_base::Txt;
use pm_levels::{LevelFault, Levels};
use pm_manifest::{Entry, FileId};
use pm_schema::{TableSchema, folder_of};
use pm_values::{FileMeta, Group, Refusal};
use std::alloc::{AllocError, Global};
use std::collections::BTreeMap;

/// The runs of each group that has live files. A file above level 0 that shares keys with another one is `Damaged`, at
/// its path: of several the first by group, then level, then least key, then name.
pub fn group_levels(
    alloc: Global,
    schema: &TableSchema,
    live: IndexMap<FileId, Entry>,
) -> Result<BTreeMap<Group, Levels>, Refusal>
    requires named { AreNamed (get id_eq live) }
    requires folders { HaveFolders schema.now (get id_eq live) }
    ensures runs { IfOk result (λ groups. (g : GroupView) →
        GroupRuns (get id_eq live) g (get_by (group_cmp g) groups)) }
    ensures folders { IfOk result (λ groups. (g : GroupView) →
        IsSome (get_by (group_cmp g) groups) → FitsPartition schema.now g) }
    ensures refused { IfErr result (Overlaps schema.now (get id_eq live)) }
{
    let groups = files_by_group(alloc, live)?;
    levels_by_group(alloc, schema, groups)
}

/// The files of each group that has live files.
fn files_by_group(
    alloc: Global,
    live: IndexMap<FileId, Entry>,
) -> Result<BTreeMap<Group, Vec<FileMeta>>, AllocError>
    ensures files { IfOk result (λ groups. (g : GroupView) →
        lookup (is_at (group_cmp g)) (grouped groups.entries) ≡ some_files (files_in g (values live))) }
    ensures unique { IsUnique id_eq live }
{
    let mut groups = BTreeMap::new(alloc);
    for (_, entry) in live {
        put_file(&mut groups, entry)?;
    }
    Ok(groups)
}

/// Puts the file of an entry to those of the entry's group.
fn put_file(groups: &mut BTreeMap<Group, Vec<FileMeta>>, entry: Entry) -> Result<(), AllocError>
    ensures { OnOk result ((g : GroupView) →
        option_map (λ files. files.items) (get_by (group_cmp g) groups.new)
        ≡ with_file g entry (option_map (λ files. files.items) (get_by (group_cmp g) groups.old))) }
{
    groups.entry(entry.group)?.or_default().push(entry.file)?;
    Ok(())
}

/// The runs of the files of each group, by rising group.
fn levels_by_group(
    alloc: Global,
    schema: &TableSchema,
    groups: BTreeMap<Group, Vec<FileMeta>>,
) -> Result<BTreeMap<Group, Levels>, Refusal>
    requires { (g : GroupView) → IsSome (lookup (is_at (group_cmp g)) (grouped groups.entries))
        → FitsPartition schema.now g }
    ensures runs { IfOk result (λ levels. (g : GroupView) →
        HasRuns (lookup (is_at (group_cmp g)) (grouped groups.entries)) (get_by (group_cmp g) levels)) }
    ensures refused { IfErr result (RefusesGroups schema.now (grouped groups.entries)) }
    ensures ordered { IsStrictlySortedBy group_cmp (keys_of (grouped groups.entries)) }
{
    let mut levels = BTreeMap::new(alloc);
    for (group, files) in groups {
        let own = levels_of(alloc, schema, &group, files)?;
        levels.insert(group, own)?;
    }
    Ok(levels)
}

/// The runs of the files of a group.
fn levels_of(
    alloc: Global,
    schema: &TableSchema,
    group: &Group,
    files: Vec<FileMeta>,
) -> Result<Levels, Refusal>
    requires { FitsPartition schema.now group.now }
    ensures runs { IfOk result (λ levels. AreRuns files.items levels) }
    ensures disjoint { IfOk result (λ levels. AreDisjoint files.items) }
    ensures refused { IfErr result (RefusesFiles schema.now group.now files.items) }
{
    match Levels::of_files(alloc, files) {
        Ok(levels) => Ok(levels),
        Err(LevelFault::Overlap(file)) => {
            let path = data_path(alloc, schema, group, &file.name)?;
            Err(Refusal::Damaged { path, place: 0 })
        }
        Err(LevelFault::Memory) => Err(Refusal::Memory),
    }
}

/// The path of a data file of a group, or of a changelog file.
pub fn data_path(
    alloc: Global,
    schema: &TableSchema,
    group: &Group,
    name: &Txt,
) -> Result<Txt, AllocError>
    requires { FitsPartition schema.now group.now }
    ensures { IfOk result (λ path. path ≡ data_path schema.now group.now name.now) }
{
    let folder = folder_of(alloc, schema, group)?;
    let path = format!(in alloc; "{}/{}", folder.as_str(), name.as_str())?;
    Txt::from_str(alloc, path.as_str())
}
