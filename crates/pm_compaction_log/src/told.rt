//! What is told of a key.

ghost use Rattle.std.specs.Prelude.{◌≡◌, ◌&&◌, ◌∷◌, [], ◌++◌, IfOk, OnOk, Some};
ghost use Rattle.std.specs.Ordering.{eq_by_cmp};
ghost use Rattle.pm_values.specs.Order.{key_cmp};
ghost use Rattle.pm_model_following.specs.Following.{leaves_out_equal, told};
ghost use Rattle.pm_changelog.specs.GroupLog.{IsNext};
ghost use Rattle.pm_compaction_log.specs.Told.{Adds, IsOneOf, IsUpon, Tells, changes_of, shown_by};

use pm_changelog::GroupLog;
use pm_engine::{MergeEngine, Needed, Stored};
use pm_options::EngineKind;
use pm_schema::TableSchema;
use pm_values::{Key, Kind, Row};
use std::alloc::{AllocError, Global};
use std::cmp::Ordering;

/// Tells what a key showed with its older stored row, if it has one, and what it shows with the newer one upon it.
pub(crate) fn tell<E: MergeEngine>(
    alloc: Global,
    engine: &E,
    equal_out: bool,
    log: &mut GroupLog,
    key: &Key,
    older: Option<Stored>,
    newer: Stored,
) -> Result<(), AllocError>
    requires { IsNext log.old key.now }
    ensures { OnOk result (Adds (Tells (E.meaning engine.now) equal_out key.now older newer) log.old log.new) }
{
    let now = upon(alloc, engine, &older, newer)?;
    let old = shown(engine, older);
    let new = shown(engine, Some(now));
    tell_shown(alloc, equal_out, log, key, old, new)
}

/// The newer row upon the older one, if there is one.
fn upon<E: MergeEngine>(
    alloc: Global,
    engine: &E,
    older: &Option<Stored>,
    newer: Stored,
) -> Result<Stored, AllocError>
    ensures { IfOk result (λ now. IsUpon (E.meaning engine.now) older.now newer now) }
{
    match older {
        Some(older) => upon_one(alloc, engine, older, newer),
        None => Ok(newer),
    }
}

/// The newer row upon an older one.
fn upon_one<E: MergeEngine>(
    alloc: Global,
    engine: &E,
    older: &Stored,
    newer: Stored,
) -> Result<Stored, AllocError>
    ensures { IfOk result (λ now. IsUpon (E.meaning engine.now) (Some older.now) newer now) }
{
    match engine.needed() {
        Needed::Newer => Ok(newer),
        Needed::Older => copied(alloc, older),
        Needed::Both => {
            let copy = copied(alloc, older)?;
            engine.combine(alloc, copy, newer)
        }
    }
}

/// The stored row of a key by runs and by others upon them, each of which has one of it or none.
pub(crate) fn one_of<E: MergeEngine>(
    alloc: Global,
    engine: &E,
    older: Option<Stored>,
    newer: Option<Stored>,
) -> Result<Option<Stored>, AllocError>
    ensures { IfOk result (λ one. IsOneOf (E.meaning engine.now) older newer one) }
{
    match newer {
        Some(newer) => Ok(Some(upon(alloc, engine, &older, newer)?)),
        None => Ok(older),
    }
}

/// The row that a key with this stored row shows, if it has one.
fn shown<E: MergeEngine>(engine: &E, stored: Option<Stored>) -> Option<Row>
    ensures { result ≡ shown_by (E.meaning engine.now) stored }
{
    match stored {
        Some(stored) => shown_of(engine, stored),
        None => None,
    }
}

/// The row of a stored row, if its key shows.
fn shown_of<E: MergeEngine>(engine: &E, stored: Stored) -> Option<Row>
    ensures { result ≡ shown_by (E.meaning engine.now) (Some stored) }
{
    if engine.shows(&stored) {
        Some(stored.row)
    } else {
        None
    }
}

/// Tells what a key had and has.
fn tell_shown(
    alloc: Global,
    equal_out: bool,
    log: &mut GroupLog,
    key: &Key,
    old: Option<Row>,
    new: Option<Row>,
) -> Result<(), AllocError>
    requires { IsNext log.old key.now }
    ensures { OnOk result (log.new ≡ log.old ++ changes_of key.now (told equal_out old new)) }
{
    match (old, new) {
        (None, None) => Ok(()),
        (None, Some(new)) => tell_row(alloc, log, key, Kind::Insert, new),
        (Some(old), None) => tell_row(alloc, log, key, Kind::Delete, old),
        (Some(old), Some(new)) => tell_pair(alloc, equal_out, log, key, old, new),
    }
}

/// Tells two rows of a key, unless they are equal and such pairs are left out.
fn tell_pair(
    alloc: Global,
    equal_out: bool,
    log: &mut GroupLog,
    key: &Key,
    old: Row,
    new: Row,
) -> Result<(), AllocError>
    requires { IsNext log.old key.now }
    ensures { OnOk result (log.new ≡ log.old ++ changes_of key.now (told equal_out (Some old) (Some new))) }
{
    if is_left_out(equal_out, &old, &new) {
        return Ok(());
    }
    tell_row(alloc, log, key, Kind::UpdateBefore, old)?;
    tell_row(alloc, log, key, Kind::UpdateAfter, new)
}

/// Tells a row of a key.
fn tell_row(
    alloc: Global,
    log: &mut GroupLog,
    key: &Key,
    kind: Kind,
    row: Row,
) -> Result<(), AllocError>
    requires { IsNext log.old key.now }
    ensures { OnOk result (log.new ≡ log.old ++ record { key = key.now; kind = kind; row = row } ∷ []) }
{
    log.tell(key.copy(alloc)?, kind, row)
}

/// Whether a pair of rows is left out, as their values are the same.
fn is_left_out(equal_out: bool, old: &Row, new: &Row) -> bool
    ensures { result ≡ (equal_out && eq_by_cmp key_cmp old.now new.now) }
{
    equal_out && old.values().cmp(new.values()) == Ordering::Equal
}

/// An equal row.
fn copied(alloc: Global, stored: &Stored) -> Result<Stored, AllocError>
    ensures { IfOk result (λ copy. copy ≡ stored.now) }
{
    Ok(Stored {
        kind: stored.kind,
        row: stored.row.copy(alloc)?,
    })
}

/// Whether equal rows aren't told of a table.
pub(crate) fn leaves_out_equal(schema: &TableSchema) -> bool
    ensures { result ≡ leaves_out_equal schema.now schema.now.options.engine }
{
    match schema.options.engine {
        EngineKind::FirstRow => true,
        _ => schema.options.row_deduplicate,
    }
}
