//! The log of a compaction of a table with the producer of look-ups.

ghost use Rattle.std.specs.Prelude.{◌≡◌, ◌≢◌, ◌++◌, All, List, None, Option, Err, IfErr, IfOk, OnOk, Some, map};
ghost use Rattle.pm_values.specs.declared.record.Stamped.{Stamped as StampedView};
ghost use Rattle.pm_values.specs.declared.refusal.Refusal.TheVariants.{Memory};
ghost use Rattle.pm_engine.specs.Covers.{IsRising, Run};
ghost use Rattle.pm_engine.specs.OfSchema.{meaning_of};
ghost use Rattle.pm_engine.specs.declared.stored.Stored.{Stored as StoredView};
ghost use Rattle.pm_model_following.specs.Following.{leaves_out_equal};
ghost use Rattle.pm_merge.specs.Merging.{HaveNoRefusal, runs_in};
ghost use Rattle.pm_merge.specs.Source.{Rest};
ghost use Rattle.pm_changelog.specs.GroupLog.{IsNext};
ghost use Rattle.pm_lookup.specs.Lookup.{IsFor, IsOldValue, looked_in, stored_part};
ghost use Rattle.pm_compaction_log.specs.Log.{AreFilesWith, FindsBoth, IsLogUpon, LooksForAll, RefusesLooking};
ghost use Rattle.pm_compaction_log.specs.Older.{AreLeft};
ghost use Rattle.pm_compaction_log.specs.Told.{Adds, Tells};

use crate::older::OlderRows;
use crate::told::{leaves_out_equal, one_of, tell};
use pm_changelog::GroupLog;
use pm_engine::{MergeEngine, Stored};
use pm_lookup::{Lookup, old_value_law};
use pm_merge::{Merging, RowSource, given_law};
use pm_model_changelog::keys_law;
use pm_row_slots::RowSlot;
use pm_schema::TableSchema;
use pm_values::Refusal;
use std::alloc::Global;

/// Of each key of the newer runs, by rising key, what it showed by the older ones, and what it shows by all of them. Of
/// the older ones those that are read anyway are given beside the newer ones, and read along with them; in those under
/// these old values are looked up. Runs are given with the oldest first, and were read and judged before. All calls
/// with a look-up are given equal schemas. A refusal is that of the old value of a key of the newer rows.
pub fn lookup_log<'b, E: MergeEngine, S: RowSource<RowSlot<'b>>>(
    alloc: Global,
    engine: &E,
    schema: &TableSchema,
    newer: Vec<S>,
    beside: Vec<S>,
    under: &mut Lookup,
) -> Result<GroupLog, Refusal>
    requires rising { All IsRising (runs_in (map S.rest newer.items)) }
    requires below { All IsRising (runs_in (map S.rest beside.items)) }
    requires judged { HaveNoRefusal (map S.rest newer.items) }
    requires judged_beside { HaveNoRefusal (map S.rest beside.items) }
    requires opened { IsFor schema.now under.old }
    ensures same { OnOk result (looked_in under.new ≡ looked_in under.old) }
    ensures opened { IsFor schema.now under.new }
    ensures log { IfOk result (λ log. E.meaning engine.now ≡ meaning_of schema.now → (old : List Run)
        → AreFilesWith schema.now (looked_in under.old) old
        → IsLogUpon schema.now (old ++ runs_in (map S.rest beside.items)) (runs_in (map S.rest newer.items)) log) }
    ensures looks { IfOk result (λ log.
        LooksForAll (E.meaning engine.now) schema.now (looked_in under.old) (map S.rest newer.items)) }
    ensures refuses { IfErr result (λ e. e ≢ Memory →
        RefusesLooking (E.meaning engine.now) schema.now (looked_in under.old) (map S.rest newer.items) e) }
{
    given_law();
    keys_law();
    old_value_law();
    let mut log = GroupLog::none(alloc);
    let mut nearer = OlderRows::of(alloc, beside)?;
    let mut merging = Merging::of(alloc, newer)?;
    let mut slot = Box::new(alloc, RowSlot::new(alloc))?;
    loop {
        merging.fill(alloc, engine, &mut slot)?;
        if slot.is_none() {
            return Ok(log);
        }
        tell_looked(
            alloc,
            engine,
            schema,
            &mut nearer,
            under,
            &mut log,
            &mut slot,
        )?;
    }
}

/// Tells of the key of the row of a place, which leaves it, what it showed by its older row, of which a part is read
/// along and the other is looked up, and what it shows with this one upon it.
fn tell_looked<'b, E: MergeEngine, S: RowSource<RowSlot<'b>>>(
    alloc: Global,
    engine: &E,
    schema: &TableSchema,
    nearer: &mut OlderRows<'b, S>,
    under: &mut Lookup,
    log: &mut GroupLog,
    slot: &mut Box<RowSlot<'b>>,
) -> Result<(), Refusal>
    requires opened { IsFor schema.now under.old }
    requires next { (x : StampedView) → slot.old.value ≡ Some x → IsNext log.old x.key }
    ensures same { OnOk result (looked_in under.new ≡ looked_in under.old) }
    ensures opened { IsFor schema.now under.new }
    ensures tells { OnOk result ((x : StampedView) (rests : List Rest) → slot.old.value ≡ Some x
        → AreLeft (E.meaning engine.now) S.rest nearer.old rests → (old : Option StoredView) × (left : List Rest)
        × AreLeft (E.meaning engine.now) S.rest nearer.new left
        × FindsBoth (E.meaning engine.now) schema.now (looked_in under.old) x.key rests old left
        × Adds (Tells (E.meaning engine.now) (leaves_out_equal schema.now schema.now.options.engine) x.key old
        (stored_part x)) log.old log.new) }
    ensures none { OnOk result (slot.new.value ≡ None) }
    ensures refuses { IfErr result (λ e. e ≢ Memory → (x : StampedView) (rests : List Rest) → slot.old.value ≡ Some x
        → AreLeft (E.meaning engine.now) S.rest nearer.old rests → HaveNoRefusal rests
        → IsOldValue (E.meaning engine.now) schema.now x.key (looked_in under.old) (Err e)) }
{
    let near = nearer.find(alloc, engine, slot)?;
    let Some(row) = slot.take(alloc)? else {
        return Ok(());
    };
    let far = under.old_value(alloc, engine, schema, &row.key)?;
    let old = one_of(alloc, engine, far, near)?;
    let new = Stored {
        kind: row.kind,
        row: row.row,
    };
    let equal_out = leaves_out_equal(schema);
    tell(alloc, engine, equal_out, log, &row.key, old, new)?;
    Ok(())
}
