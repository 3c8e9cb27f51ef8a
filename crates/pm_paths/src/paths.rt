//! The paths of a table's files.

ghost use Rattle.std.specs.Prelude.{◌≡◌, IfOk};
ghost use Rattle.pm_model_contents.specs.Lists.{manifest_path};
ghost use Rattle.pm_model_folder.specs.Paths.{origin_path, schema_path, snapshot_file, snapshot_path};

use pm_base::Txt;
use pm_schema::TableSchema;
use std::alloc::{AllocError, Global};

/// The path of the schema with an id.
pub fn schema_path(alloc: Global, id: u64) -> Result<Txt, AllocError>
    ensures { IfOk result (λ path. path ≡ schema_path id) }
{
    let text = format!(in alloc; "schema/schema-{id}")?;
    Txt::from_str(alloc, text.as_str())
}

/// The path of the snapshot with an id.
pub fn snapshot_path(alloc: Global, id: u64) -> Result<Txt, AllocError>
    ensures { IfOk result (λ path. path ≡ snapshot_path id) }
{
    let text = format!(in alloc; "snapshot/snapshot-{id}")?;
    Txt::from_str(alloc, text.as_str())
}

/// The path of a file in the folder of snapshots.
pub fn snapshot_file(alloc: Global, name: &Txt) -> Result<Txt, AllocError>
    ensures { IfOk result (λ path. path ≡ snapshot_file name.now) }
{
    let name = name.as_str();
    let text = format!(in alloc; "snapshot/{name}")?;
    Txt::from_str(alloc, text.as_str())
}

/// The path of the origin of the table with a schema: the file that the schema names, or the one with the name of
/// snapshot 0 where it names none.
pub fn origin_path(alloc: Global, schema: &TableSchema) -> Result<Txt, AllocError>
    ensures { IfOk result (λ path. path ≡ origin_path schema.now) }
{
    match &schema.origin {
        Some(name) => snapshot_file(alloc, name),
        None => snapshot_path(alloc, 0),
    }
}

/// The path of a manifest, or of a list of them.
pub fn manifest_path(alloc: Global, name: &Txt) -> Result<Txt, AllocError>
    ensures { IfOk result (λ path. path ≡ manifest_path name.now) }
{
    let name = name.as_str();
    let text = format!(in alloc; "manifest/{name}")?;
    Txt::from_str(alloc, text.as_str())
}
