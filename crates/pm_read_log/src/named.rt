//! The paths that a snapshot names.

ghost use Rattle.std.specs.Prelude.{◌≡◌, ◌++◌, ◌∷◌, [], Some, IfOk, OnOk};
ghost use Rattle.pm_model_contents.specs.Lists.{manifest_path};
ghost use Rattle.pm_read_table.specs.Asked.{KeepsEntries};
ghost use Rattle.pm_read_table.specs.View.{HaveGroups};
ghost use Rattle.pm_read_table.specs.Named.{file_paths, log_list_path, meta_paths, named_paths, parts_of};

use crate::log::Log;
use pm_base::Txt;
use pm_manifest::{Entry, ManifestMeta};
use pm_model_contents::data_path;
use pm_paths::manifest_path;
use pm_read_table::View;
use pm_schema::TableSchema;
use pm_snapshot::Snapshot;
use std::alloc::{AllocError, Global};

/// The paths that a snapshot names, by a view of it that has the entries of its live files, and by its changelog: of
/// its lists, of their manifests, of its live files, and of the manifests and files of its changelog. A path may stand
/// twice: that of a file that is live at two levels.
pub fn named_paths(alloc: Global, view: &View, log: &Log) -> Result<Vec<Txt>, AllocError>
    requires entries { KeepsEntries view.now.wanted }
    requires snapshot { view.now.snapshot ≡ Some log.now.snapshot }
    requires schema { view.now.schema ≡ log.now.schema }
    requires live { HaveGroups log.now.schema view.now.live.items }
    requires changes { HaveGroups log.now.schema log.now.changes.items }
    ensures { IfOk result (λ paths. paths.items ≡ named_paths log.now.schema log.now.snapshot
        (parts_of view.now.manifests.items view.now.live.items log.now.manifests.items log.now.changes.items)) }
{
    let mut paths = Vec::new(alloc);
    put_lists(alloc, &log.snapshot, &mut paths)?;
    put_manifests(alloc, view.manifests.as_slice(), &mut paths)?;
    put_files(alloc, &log.schema, view.live.as_slice(), &mut paths)?;
    put_manifests(alloc, log.manifests.as_slice(), &mut paths)?;
    put_files(alloc, &log.schema, log.changes.as_slice(), &mut paths)?;
    Ok(paths)
}

/// Puts the paths of a snapshot's lists to others.
fn put_lists(alloc: Global, snapshot: &Snapshot, paths: &mut Vec<Txt>) -> Result<(), AllocError>
    ensures { OnOk result (paths.new.items ≡ paths.old.items ++ (manifest_path snapshot.now.base_list
        ∷ manifest_path snapshot.now.delta_list ∷ log_list_path snapshot.now.changelog_list)) }
{
    paths.push(manifest_path(alloc, &snapshot.base_list)?)?;
    paths.push(manifest_path(alloc, &snapshot.delta_list)?)?;
    put_list(alloc, &snapshot.changelog_list, paths)
}

/// Puts the path of a changelog list to others, where there is one.
fn put_list(alloc: Global, list: &Option<Txt>, paths: &mut Vec<Txt>) -> Result<(), AllocError>
    ensures { OnOk result (paths.new.items ≡ paths.old.items ++ log_list_path list.now) }
{
    match list {
        Some(name) => {
            paths.push(manifest_path(alloc, name)?)?;
            Ok(())
        }
        None => Ok(()),
    }
}

/// Puts the paths of manifests to others.
fn put_manifests(
    alloc: Global,
    metas: &[ManifestMeta],
    paths: &mut Vec<Txt>,
) -> Result<(), AllocError>
    ensures { OnOk result (paths.new.items ≡ paths.old.items ++ meta_paths metas.now) }
{
    for meta in metas {
        paths.push(manifest_path(alloc, &meta.name)?)?;
    }
    Ok(())
}

/// Puts the paths of the files of entries to others.
fn put_files(
    alloc: Global,
    schema: &TableSchema,
    entries: &[Entry],
    paths: &mut Vec<Txt>,
) -> Result<(), AllocError>
    requires { HaveGroups schema.now entries.now }
    ensures { OnOk result (paths.new.items ≡ paths.old.items ++ file_paths schema.now entries.now) }
{
    for entry in entries {
        paths.push(data_path(alloc, schema, &entry.group, &entry.file.name)?)?;
    }
    Ok(())
}
