//! Rows of a batch made into one run, where they lie packed: one at a time is taken out to be stored.

ghost use Rattle.std.specs.Prelude.{◌≡◌, ◌↔◌, ◌+◌, ◌<◌, ◌≤◌, [], ◌∷◌, ◌++◌, drop, get_or, length, map, take};
ghost use Rattle.std.specs.Prelude.{true, All, IfNone, IfOk, IfSome, OnOk, if◌then◌else◌};
ghost use Rattle.std.specs.List.{FoldsTo};
ghost use Rattle.std.specs.Ordering.{eq_by_cmp};
ghost use Rattle.pm_values.specs.Order.{Values, key_cmp};
ghost use Rattle.pm_values.specs.declared.record.Stamped.{Stamped as StampedView};
ghost use Rattle.pm_model_history.specs.declared.verdict.Verdict.TheVariants.{Take};
ghost use Rattle.pm_engine.specs.Covers.{CoversAll, IsKeyed, IsRising, of_key, row_of};
ghost use Rattle.pm_engine.specs.Needed.{IsNeeded, raised};
ghost use Rattle.pm_engine.specs.Reducing.{EndsApart, HasGreatestNumbers, HasKinds, IsLifted, IsCombined, Puts};
ghost use Rattle.pm_engine.specs.Reducing.{StoresRows};
ghost use Rattle.pm_engine.specs.declared.needed.Needed.TheVariants.{Newer, Older};

use crate::engine::MergeEngine;
use crate::needed::Needed;
use crate::stored::Stored;
use pm_packed::PackedRows;
use pm_values::Stamped;
use std::alloc::{AllocError, Global};
use std::cmp::Ordering;

/// One stored row for each key that rows have, and of no other, by rising key. A stored row has the greatest number of
/// its rows, and their kind.
pub fn reduce<E: MergeEngine>(
    alloc: Global,
    engine: &E,
    rows: PackedRows,
) -> Result<PackedRows, AllocError>
    requires { All (λ s. (E.meaning engine.now).verdict s.kind ≡ Take) rows }
    ensures rising { IfOk result IsRising }
    ensures keys { IfOk result (λ run. (key : Values) → (of_key key run ≡ []) ↔ (of_key key rows ≡ [])) }
    ensures numbers { IfOk result (λ run. HasGreatestNumbers run rows) }
    ensures kinds { IfOk result (λ run. HasKinds (E.meaning engine.now) run rows) }
    ensures covers { IfOk result (λ run. All (IsKeyed (E.meaning engine.now)) rows →
        CoversAll (E.meaning engine.now) (run ∷ []) (map row_of rows)) }
{
    let mut rows = rows;
    rows.sort()?;
    gathered(alloc, engine, rows)
}

/// The run of sorted rows.
fn gathered<E: MergeEngine>(
    alloc: Global,
    engine: &E,
    rows: PackedRows,
) -> Result<PackedRows, AllocError>
    requires { All (λ s. (E.meaning engine.now).verdict s.kind ≡ Take) rows }
    ensures { IfOk result (λ run. FoldsTo (Puts (E.meaning engine.now)) [] rows run) }
{
    if engine.stores_rows() {
        match engine.needed() {
            Needed::Newer => return Ok(picked(engine, true, rows)),
            Needed::Older => return Ok(picked(engine, false, rows)),
            Needed::Both => {}
        }
    }
    combined_rows(alloc, engine, rows)
}

/// The run of sorted rows where each is its own stored row, and the newer of two, or else the older one, is what both
/// are combined to. It is made where they lie: its rows are the first ones, and none is taken out.
fn picked<E: MergeEngine>(engine: &E, newer: bool, rows: PackedRows) -> PackedRows
    requires taken { All (λ s. (E.meaning engine.now).verdict s.kind ≡ Take) rows }
    requires own { StoresRows (E.meaning engine.now) }
    requires needed { IsNeeded (E.meaning engine.now) (if newer then Newer else Older) }
    ensures { FoldsTo (Puts (E.meaning engine.now)) [] rows result }
{
    let mut rows = rows;
    if rows.len() == 0 {
        return rows;
    }
    let mut last = 0;
    for index in 1..rows.len() {
        last = pick(engine, newer, &mut rows, last, index);
    }
    rows.truncate(last + 1);
    rows
}

/// Takes the row at the index into the run, of which no key is above the row's: it is the rows up to the last one.
/// Gives the index of the last one then.
fn pick<E: MergeEngine>(
    _engine: &E,
    newer: bool,
    rows: &mut PackedRows,
    last: usize,
    index: usize,
) -> usize
    requires before { last < index }
    requires within { index < length rows.old }
    requires taken { (none : StampedView) → (E.meaning _engine.now).verdict (get_or rows.old index none).kind ≡ Take }
    requires own { StoresRows (E.meaning _engine.now) }
    requires needed { IsNeeded (E.meaning _engine.now) (if newer then Newer else Older) }
    ensures puts { (none : StampedView) → Puts (E.meaning _engine.now)
        (take (last + 1) rows.old) (get_or rows.old index none) (take (result + 1) rows.new) }
    ensures before { result ≤ index }
    ensures later { drop (index + 1) rows.new ≡ drop (index + 1) rows.old }
    ensures as_many { length rows.new ≡ length rows.old }
{
    if !rows.have_one_key(last, index) {
        rows.copy_back(index, last + 1);
        return last + 1;
    }
    if newer {
        take_newer(rows, last, index);
        return last;
    }
    take_older(rows, last, index);
    last
}

/// Puts the newer row of two in the place of the older one, with the greater number.
fn take_newer(rows: &mut PackedRows, older: usize, newer: usize)
    requires before { older < newer }
    requires within { newer < length rows.old }
    ensures front { (none : StampedView) → take (older + 1) rows.new ≡ take older rows.old
        ++ raised (get_or rows.old older none).seq (get_or rows.old newer none) ∷ [] }
    ensures later { drop (newer + 1) rows.new ≡ drop (newer + 1) rows.old }
    ensures as_many { length rows.new ≡ length rows.old }
{
    rows.raise(newer, older);
    rows.copy_back(newer, older);
}

/// Gives the older row of two the greater number.
fn take_older(rows: &mut PackedRows, older: usize, newer: usize)
    requires before { older < newer }
    requires within { newer < length rows.old }
    ensures front { (none : StampedView) → take (older + 1) rows.new ≡ take older rows.old
        ++ raised (get_or rows.old newer none).seq (get_or rows.old older none) ∷ [] }
    ensures later { drop (newer + 1) rows.new ≡ drop (newer + 1) rows.old }
    ensures as_many { length rows.new ≡ length rows.old }
{
    rows.raise(older, newer);
}

/// The run of sorted rows. It is made where they lie: its rows are the first ones, no more than were taken. The last
/// one is in hand until another key comes, so that what is joined to it isn't packed each time.
fn combined_rows<E: MergeEngine>(
    alloc: Global,
    engine: &E,
    rows: PackedRows,
) -> Result<PackedRows, AllocError>
    requires { All (λ s. (E.meaning engine.now).verdict s.kind ≡ Take) rows }
    ensures { IfOk result (λ run. FoldsTo (Puts (E.meaning engine.now)) [] rows run) }
{
    let mut rows = rows;
    if rows.len() == 0 {
        return Ok(rows);
    }
    let mut last = stored_at(alloc, engine, &rows, 0)?;
    let mut count = 0;
    for index in 1..rows.len() {
        (count, last) = put(alloc, engine, &mut rows, count, index, last)?;
    }
    let end = rows.len() - 1;
    keep(&mut rows, count, end, &last)?;
    rows.truncate(count + 1);
    Ok(rows)
}

/// Takes the row at the index into the run, of which no key is above the row's: it is the first rows, so many, and the
/// last one in hand. Gives how many those are then, and the one in hand.
fn put<E: MergeEngine>(
    alloc: Global,
    engine: &E,
    rows: &mut PackedRows,
    count: usize,
    index: usize,
    last: Stamped,
) -> Result<(usize, Stamped), AllocError>
    requires before { count < index }
    requires within { index < length rows.old }
    requires taken { (none : StampedView) → (E.meaning engine.now).verdict (get_or rows.old index none).kind ≡ Take }
    ensures puts { IfOk result (λ run. (none : StampedView) → Puts (E.meaning engine.now)
        (take count rows.old ++ last ∷ []) (get_or rows.old index none) (take run.0 rows.new ++ run.1 ∷ [])) }
    ensures before { IfOk result (λ run. run.0 ≤ index) }
    ensures later { OnOk result (drop index rows.new ≡ drop index rows.old) }
    ensures as_many { OnOk result (length rows.new ≡ length rows.old) }
{
    let stored = stored_at(alloc, engine, rows, index)?;
    match last.key.cmp(&stored.key) {
        Ordering::Equal => Ok((count, combined(alloc, engine, last, stored)?)),
        _ => {
            keep(rows, count, index - 1, &last)?;
            Ok((count + 1, stored))
        }
    }
}

/// The row at the index as a stored row.
fn stored_at<E: MergeEngine>(
    alloc: Global,
    engine: &E,
    rows: &PackedRows,
    index: usize,
) -> Result<Stamped, AllocError>
    requires within { index < length rows.now }
    requires taken { (none : StampedView) → (E.meaning engine.now).verdict (get_or rows.now index none).kind ≡ Take }
    ensures { IfOk result (λ stored. (none : StampedView) →
        IsLifted (E.meaning engine.now) (get_or rows.now index none) stored) }
{
    let own = rows.unpacked(alloc, index)?;
    lifted(alloc, engine, own)
}

/// Packs a row of the run at its index. Where it is the one that lies at an index from there on, no bytes are added.
fn keep(rows: &mut PackedRows, count: usize, from: usize, row: &Stamped) -> Result<(), AllocError>
    requires before { count ≤ from }
    requires within { from < length rows.old }
    ensures front { OnOk result (take (count + 1) rows.new ≡ take count rows.old ++ row.now ∷ []) }
    ensures later { OnOk result (drop (from + 1) rows.new ≡ drop (from + 1) rows.old) }
    ensures as_many { OnOk result (length rows.new ≡ length rows.old) }
{
    rows.copy_back(from, count);
    rows.set(count, row)
}

/// The row as a stored row.
fn lifted<E: MergeEngine>(alloc: Global, engine: &E, row: Stamped) -> Result<Stamped, AllocError>
    requires { (E.meaning engine.now).verdict row.kind ≡ Take }
    ensures { IfOk result (λ stored. IsLifted (E.meaning engine.now) row stored) }
{
    let Stored { kind, row: values } = engine.lift(alloc, row.kind, row.row)?;
    Ok(Stamped {
        key: row.key,
        seq: row.seq,
        kind,
        row: values,
    })
}

/// Two stored rows of a key as one, with the greater number. It speaks for what both speak for, and has the kind of it.
pub fn combined<E: MergeEngine>(
    alloc: Global,
    engine: &E,
    older: Stamped,
    newer: Stamped,
) -> Result<Stamped, AllocError>
    ensures { IfOk result (λ stored. IsCombined (E.meaning engine.now) older newer stored) }
{
    let seq = older.seq.max(newer.seq);
    let before = Stored {
        kind: older.kind,
        row: older.row,
    };
    let after = Stored {
        kind: newer.kind,
        row: newer.row,
    };
    let Stored { kind, row } = engine.combine(alloc, before, after)?;
    Ok(Stamped {
        key: older.key,
        seq,
        kind,
        row,
    })
}
