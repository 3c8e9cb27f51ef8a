//! A snapshot copied.

ghost use Rattle.std.specs.Prelude.{◌≡◌, IfOk};

use pm_base::Txt;
use pm_snapshot::Snapshot;
use std::alloc::{AllocError, Global};

/// An equal snapshot.
pub(crate) fn copied(alloc: Global, snapshot: &Snapshot) -> Result<Snapshot, AllocError>
    ensures { IfOk result (λ x. x ≡ snapshot.now) }
{
    Ok(Snapshot {
        id: snapshot.id,
        schema_id: snapshot.schema_id,
        base_list: snapshot.base_list.copy(alloc)?,
        delta_list: snapshot.delta_list.copy(alloc)?,
        changelog_list: copied_name(alloc, &snapshot.changelog_list)?,
        user: snapshot.user.copy(alloc)?,
        ident: snapshot.ident,
        kind: snapshot.kind,
        time: snapshot.time,
        total: snapshot.total,
        delta: snapshot.delta,
        changelog: snapshot.changelog,
        watermark: snapshot.watermark,
        base: snapshot.base,
        fence: snapshot.fence,
        appends: snapshot.appends,
        full: snapshot.full,
    })
}

/// An equal name, where there is one.
fn copied_name(alloc: Global, name: &Option<Txt>) -> Result<Option<Txt>, AllocError>
    ensures { IfOk result (λ copy. copy ≡ name.now) }
{
    match name {
        Some(name) => Ok(Some(name.copy(alloc)?)),
        None => Ok(None),
    }
}
