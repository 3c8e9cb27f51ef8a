//! Rules of rows: the key that a row has, which key may follow another, and which kinds are kept as they are.

ghost use Rattle.std.specs.Prelude.{◌≡◌, Ok, IfOk, IsTrue, true};
ghost use Rattle.std.specs.Option.{option_copied};
ghost use Rattle.std.specs.Ordering.{is_eq};
ghost use Rattle.pm_model_history.specs.Merge.{key_of, value_at};
ghost use Rattle.pm_values.specs.Order.{value_cmp};
ghost use Rattle.pm_run.specs.Order.{last_key, may_follow, rises};
ghost use Rattle.pm_run.specs.Row.{agree, row_kind};

use crate::form::TableForm;
use pm_model_history::key_of;
use pm_schema::EngineKind;
use pm_values::{Key, Kind, Row, Stamped, Value};
use std::alloc::{AllocError, Global};
use std::cmp::Ordering;

/// The greatest sequence number, 2^62 - 1.
pub const MOST_SEQUENCE: u64 = 0x3fff_ffff_ffff_ffff;

/// Whether the values are those of a row at the indexes.
pub fn agree(places: &[usize], row: &[Value], values: &[Value]) -> bool
    ensures { result ≡ agree places.now row.now values.now }
{
    if places.len() != values.len() {
        return false;
    }
    for (index, place) in places.iter().enumerate() {
        if !is_at(row, *place, &values[index]) {
            return false;
        }
    }
    true
}

/// Whether a value is that of a row at an index, where null stands for a missing one.
fn is_at(row: &[Value], index: usize, value: &Value) -> bool
    ensures { result ≡ is_eq (value_cmp value.now (value_at row.now index)) }
{
    match row.get(index) {
        Some(own) => value.cmp(own) == Ordering::Equal,
        None => value.cmp(&Value::Null) == Ordering::Equal,
    }
}

/// The key of a row that has these values at the indexes of the key's own columns. Where the key has no other columns
/// they are moved.
pub fn own_key(
    alloc: Global,
    form: &TableForm,
    row: &Row,
    values: Vec<Value>,
) -> Result<Key, AllocError>
    requires { agree form.now.places row.now values.items ≡ true }
    ensures { IfOk result (λ key. key ≡ key_of form.now.primary row.now) }
{
    if form.whole {
        Ok(Key::new(values))
    } else {
        key_of(alloc, &form.primary, row)
    }
}

/// The key of the last row, or the one before all rows.
pub fn last_key<'k>(before: &'k Option<Key>, rows: &'k [Stamped]) -> Option<&'k Key>
    ensures { option_copied result ≡ last_key before.now rows.now }
{
    match rows.last() {
        Some(row) => Some(&row.key),
        None => before.as_ref(),
    }
}

/// Whether a key may be the next.
pub fn may_follow(changes: bool, before: Option<&Key>, key: &Key) -> bool
    ensures { result ≡ may_follow changes (option_copied before.entry) key.now }
{
    match before {
        Some(last) => rises(changes, last, key),
        None => true,
    }
}

/// Whether a key may follow another.
fn rises(changes: bool, last: &Key, key: &Key) -> bool
    ensures { result ≡ rises changes last.now key.now }
{
    let order = last.cmp(key);
    if changes {
        order != Ordering::Greater
    } else {
        order == Ordering::Less
    }
}

/// Whether rows of the kind are kept as they are.
#[inline(always)]
pub fn keeps_kind(changes: bool, engine: EngineKind, kind: Kind) -> bool
    ensures { IsTrue result → row_kind changes engine kind ≡ Ok kind }
{
    if changes {
        return true;
    }
    match engine {
        EngineKind::Deduplicate => true,
        EngineKind::FirstRow => !kind.retracts(),
        _ => matches!(kind, Kind::Insert),
    }
}
