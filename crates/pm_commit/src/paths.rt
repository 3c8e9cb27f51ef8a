//! The paths of a committer's calls.

ghost use Rattle.std.specs.Prelude.{◌≡◌, IfOk};
ghost use Rattle.pm_commit.specs.Committer.{after_path};

use pm_base::Txt;
use pm_paths::{origin_path, snapshot_path};
use pm_schema::TableSchema;
use std::alloc::{AllocError, Global};

/// The path of the snapshot before the one with an id: the origin before the first.
pub(crate) fn after_path(alloc: Global, schema: &TableSchema, id: u64) -> Result<Txt, AllocError>
    ensures { IfOk result (λ path. path ≡ after_path schema.now id) }
{
    if id <= 1 {
        origin_path(alloc, schema)
    } else {
        snapshot_path(alloc, id - 1)
    }
}
