//! Rows that are judged where they lie in the bytes of a file that is as it is written here: none is kept, and no
//! memory is taken for one. Where nothing is answered nothing is known of them: they are read in another way, which
//! also finds the refusal.

ghost use Rattle.std.specs.Prelude.{◌≡◌, ◌++◌, [], List, Some, IfOk, IfSome, IsTrue, OnOk, is_some, length, map, true};
ghost use Rattle.std.specs.Ordering.{is_eq};
ghost use Rattle.pm_model_history.specs.Merge.{key_of, value_at};
ghost use Rattle.pm_values.specs.Order.{value_cmp};
ghost use Rattle.pm_values.specs.declared.record.Stamped.{Stamped};
ghost use Rattle.pm_run_bytes.specs.Direct.{AreCells, AreRows, IsRow, IsWrittenRow};
ghost use Rattle.pm_run.specs.Order.{last_key, may_follow};
ghost use Rattle.pm_run.specs.Row.{agree};
ghost use Rattle.pm_run_bytes.specs.Seen.{seen_key};
ghost use Rattle.pm_row_slots.specs.Seen.{seen_row, seen_value};

use crate::direct::{read_kind, read_sequence, see_value};
use pm_row_slots::{Seen, SeenRow, order_of, seen_of, values_of};
use pm_run::Field;
use pm_run_form::TableForm;
use pm_values::{Key, Value};
use std::alloc::{AllocError, Global};
use std::cmp::Ordering;
use std::mem;

/// Judges as many rows after one with the key before, where they are all of the bytes: the key of the last, or of that
/// one.
pub(crate) fn judge_rows(
    alloc: Global,
    form: &TableForm,
    changes: bool,
    before: &Option<Key>,
    count: usize,
    bytes: &[u8],
) -> Option<Option<Key>>
    ensures { IfSome result (λ last. (rows : List Stamped) × AreRows form.now changes before.now rows bytes.now []
        × (length rows ≡ count) × (last ≡ last_key before.now rows)) }
{
    let mut seen = SeenRow::new(alloc);
    let mut last = lent(alloc, before).ok()?;
    let mut some = before.is_some();
    let mut rest = bytes;
    for _ in 0..count {
        let after = see_row(alloc, form, changes, rest, &mut seen)?;
        if some && !rises(changes, &last, &seen.key) {
            return None;
        }
        mem::swap(&mut last, &mut seen.key);
        some = true;
        rest = after;
    }
    if rest.is_empty() {
        Some(key_of(alloc, some, &last).ok()?)
    } else {
        None
    }
}

/// The row that the bytes begin with, as it is written, where it lies, and the rest: its key are values of it. It takes
/// no memory but where the row is longer than those before it.
pub(crate) fn see_row<'b>(
    alloc: Global,
    form: &TableForm,
    changes: bool,
    bytes: &'b [u8],
    into: &mut SeenRow<'b>,
) -> Option<&'b [u8]>
    ensures row { IfSome result (λ rest. IsRow form.now changes (seen_row into.new) bytes.now rest.now) }
    ensures written { IfSome result (λ rest. IsWrittenRow form.now (seen_row into.new) bytes.now rest.now) }
{
    let rest = see_values(alloc, &form.keys, bytes, &mut into.key)?;
    let (seq, rest) = read_sequence(alloc, rest)?;
    let (kind, rest) = read_kind(alloc, changes, form.engine, rest)?;
    let rest = see_values(alloc, &form.columns, rest, &mut into.row)?;
    into.seq = seq;
    into.kind = kind;
    if !are_at(&form.places, &into.row, &into.key) {
        return None;
    }
    own_key(form, &into.row, &mut into.key).ok()?;
    Some(rest)
}

/// The key of a row, where its values lie, in the place of values that are those at the indexes of the key's own
/// columns. Where the key has no other columns they stay.
#[inline(always)]
fn own_key<'b>(
    form: &TableForm,
    row: &[Seen<'b>],
    key: &mut Vec<Seen<'b>>,
) -> Result<(), AllocError>
    requires { agree form.now.places (map seen_value row.now) (map seen_value key.old.items) ≡ true }
    ensures { OnOk result (map seen_value key.new.items ≡ key_of form.now.primary (map seen_value row.now)) }
{
    if form.whole {
        Ok(())
    } else {
        see_key(&form.primary, row, key)
    }
}

/// The values of a row at indexes, where they lie, in the place of those before.
fn see_key<'b>(
    primary: &[usize],
    row: &[Seen<'b>],
    into: &mut Vec<Seen<'b>>,
) -> Result<(), AllocError>
    ensures { OnOk result (map seen_value into.new.items ≡ key_of primary.now (map seen_value row.now)) }
{
    into.clear();
    for index in primary {
        into.push(seen_at(row, *index))?;
    }
    Ok(())
}

/// The value at an index, null where there is none.
fn seen_at<'b>(row: &[Seen<'b>], index: usize) -> Seen<'b>
    ensures { seen_value result ≡ value_at (map seen_value row.now) index }
{
    match row.get(index) {
        Some(own) => *own,
        None => Seen::Null,
    }
}

/// The values of fields that the bytes begin with, where they lie, and the rest. As many values as those before are put
/// in their place, one by one, so that none is moved.
#[inline(always)]
fn see_values<'b>(
    alloc: Global,
    fields: &[Field],
    bytes: &'b [u8],
    into: &mut Vec<Seen<'b>>,
) -> Option<&'b [u8]>
    ensures { IfSome result (λ rest. AreCells fields.now (map seen_value into.new.items) bytes.now rest.now) }
{
    if into.len() == fields.len() {
        return see_each(alloc, fields, bytes, into);
    }
    see_first(alloc, fields, bytes, into)
}

/// The same where as many values stand there.
#[inline(always)]
fn see_each<'b>(
    alloc: Global,
    fields: &[Field],
    bytes: &'b [u8],
    into: &mut [Seen<'b>],
) -> Option<&'b [u8]>
    requires { length into.old ≡ length fields.now }
    ensures { IfSome result (λ rest. AreCells fields.now (map seen_value into.new) bytes.now rest.now) }
{
    let mut rest = bytes;
    for (index, field) in fields.iter().enumerate() {
        let (seen, after) = see_value(alloc, field, rest)?;
        into[index] = seen;
        rest = after;
    }
    Some(rest)
}

/// The same where others stand there.
#[inline(never)]
fn see_first<'b>(
    alloc: Global,
    fields: &[Field],
    bytes: &'b [u8],
    into: &mut Vec<Seen<'b>>,
) -> Option<&'b [u8]>
    ensures { IfSome result (λ rest. AreCells fields.now (map seen_value into.new.items) bytes.now rest.now) }
{
    into.clear();
    let mut rest = bytes;
    for field in fields {
        let (seen, after) = see_value(alloc, field, rest)?;
        into.push(seen).ok()?;
        rest = after;
    }
    Some(rest)
}

/// Whether the values of a key are known to be those of a row at the indexes.
#[inline(always)]
fn are_at(places: &[usize], row: &[Seen], keys: &[Seen]) -> bool
    ensures { IsTrue result → agree places.now (map seen_value row.now) (map seen_value keys.now) ≡ true }
{
    match (places.split_first(), keys.split_first()) {
        (None, None) => true,
        (Some((place, places)), Some((key, keys))) => {
            is_at(row, *place, *key)
                && (places.is_empty() && keys.is_empty() || are_at(places, row, keys))
        }
        _ => false,
    }
}

/// Whether a value is known to be that of a row at an index.
fn is_at(row: &[Seen], index: usize, key: Seen) -> bool
    ensures { IsTrue result →
        is_eq (value_cmp (seen_value key.entry) (value_at (map seen_value row.now) index)) ≡ true }
{
    match row.get(index) {
        Some(own) => is_same(key, *own),
        None => false,
    }
}

/// Whether two values are known to be equal.
#[inline(always)]
fn is_same(a: Seen, b: Seen) -> bool
    ensures { IsTrue result → is_eq (value_cmp (seen_value a.entry) (seen_value b.entry)) ≡ true }
{
    match (a, b) {
        (Seen::Null, Seen::Null) => true,
        (Seen::Bool(a), Seen::Bool(b)) => a.cmp(&b) == Ordering::Equal,
        (Seen::Int(a), Seen::Int(b)) | (Seen::Millis(a), Seen::Millis(b)) => {
            a.cmp(&b) == Ordering::Equal
        }
        (Seen::Text(a), Seen::Text(b)) => a.as_bytes().cmp(b.as_bytes()) == Ordering::Equal,
        (Seen::Bytes(a), Seen::Bytes(b)) => a.cmp(b) == Ordering::Equal,
        (Seen::Day(a), Seen::Day(b)) => a.cmp(&b) == Ordering::Equal,
        _ => false,
    }
}

/// Whether a key is known to be one that may follow the last.
#[inline(always)]
fn rises(changes: bool, last: &[Seen], key: &[Seen]) -> bool
    ensures { IsTrue result → may_follow changes (Some (map seen_value last.now)) (map seen_value key.now) ≡ true }
{
    match order_of(last, key) {
        Ordering::Less => true,
        Ordering::Equal => changes,
        Ordering::Greater => false,
    }
}

/// The values of a key, or none, lent.
fn lent<'k>(alloc: Global, key: &'k Option<Key>) -> Result<Vec<Seen<'k>>, AllocError>
    ensures { IfOk result (λ seen. seen_key (is_some key.now) seen.items ≡ key.now) }
{
    let mut seen = Vec::new(alloc);
    if let Some(key) = key {
        push_lent(&mut seen, key.values())?;
    }
    Ok(seen)
}

/// Adds values, lent.
fn push_lent<'k>(seen: &mut Vec<Seen<'k>>, values: &'k [Value]) -> Result<(), AllocError>
    ensures { OnOk result (map seen_value seen.new.items ≡ map seen_value seen.old.items ++ values.now) }
{
    for value in values {
        seen.push(seen_of(value))?;
    }
    Ok(())
}

/// The key of these values, if there is one.
fn key_of(alloc: Global, some: bool, seen: &[Seen]) -> Result<Option<Key>, AllocError>
    ensures { IfOk result (λ key. key ≡ seen_key some seen.now) }
{
    if !some {
        return Ok(None);
    }
    Ok(Some(Key::new(values_of(alloc, seen)?)))
}
