//! The log of a compaction of a table with the producer of full compactions.

ghost use Rattle.std.specs.Prelude.{◌≡◌, All, List, Option, IfErr, IfOk, None, OnOk, Some, map};
ghost use Rattle.pm_values.specs.declared.record.Stamped.{Stamped as StampedView};
ghost use Rattle.pm_values.specs.declared.refusal.Refusal.TheVariants.{Memory};
ghost use Rattle.pm_engine.specs.Covers.{IsRising};
ghost use Rattle.pm_engine.specs.OfSchema.{meaning_of};
ghost use Rattle.pm_engine.specs.declared.stored.Stored.{Stored as StoredView};
ghost use Rattle.pm_model_following.specs.Following.{leaves_out_equal};
ghost use Rattle.pm_merge.specs.Merging.{HaveNoRefusal, runs_in};
ghost use Rattle.pm_merge.specs.Source.{Rest};
ghost use Rattle.pm_changelog.specs.GroupLog.{IsNext};
ghost use Rattle.pm_lookup.specs.Lookup.{stored_part};
ghost use Rattle.pm_compaction_log.specs.Log.{IsLogUpon};
ghost use Rattle.pm_compaction_log.specs.Older.{AreLeft, FindsOlder};
ghost use Rattle.pm_compaction_log.specs.Told.{Adds, Tells};

use crate::older::OlderRows;
use crate::told::{leaves_out_equal, tell};
use pm_changelog::GroupLog;
use pm_engine::{MergeEngine, Stored};
use pm_merge::{Merging, RowSource, given_law};
use pm_model_changelog::keys_law;
use pm_row_slots::RowSlot;
use pm_schema::TableSchema;
use pm_values::Refusal;
use std::alloc::Global;

/// Of each key of the newer runs, by rising key, what it showed by the older ones, and what it shows by all of them.
/// Both are given with the oldest first, and read side by side, the older ones up to the last key of the newer ones.
/// All of them were read and judged before.
pub fn full_log<'b, E: MergeEngine, S: RowSource<RowSlot<'b>>>(
    alloc: Global,
    engine: &E,
    schema: &TableSchema,
    newer: Vec<S>,
    older: Vec<S>,
) -> Result<GroupLog, Refusal>
    requires rising { All IsRising (runs_in (map S.rest newer.items)) }
    requires below { All IsRising (runs_in (map S.rest older.items)) }
    requires judged { HaveNoRefusal (map S.rest newer.items) }
    requires judged_older { HaveNoRefusal (map S.rest older.items) }
    ensures log { IfOk result (λ log. E.meaning engine.now ≡ meaning_of schema.now
        → IsLogUpon schema.now (runs_in (map S.rest older.items)) (runs_in (map S.rest newer.items)) log) }
    ensures memory { IfErr result (λ e. e ≡ Memory) }
{
    given_law();
    keys_law();
    let mut log = GroupLog::none(alloc);
    let mut olders = OlderRows::of(alloc, older)?;
    let mut merging = Merging::of(alloc, newer)?;
    let mut slot = Box::new(alloc, RowSlot::new(alloc))?;
    loop {
        merging.fill(alloc, engine, &mut slot)?;
        if slot.is_none() {
            return Ok(log);
        }
        tell_beside(alloc, engine, schema, &mut olders, &mut log, &mut slot)?;
    }
}

/// Tells of the key of the row of a place, which leaves it, what it showed by its older row, which is read along, and
/// what it shows with this one upon it.
fn tell_beside<'b, E: MergeEngine, S: RowSource<RowSlot<'b>>>(
    alloc: Global,
    engine: &E,
    schema: &TableSchema,
    olders: &mut OlderRows<'b, S>,
    log: &mut GroupLog,
    slot: &mut Box<RowSlot<'b>>,
) -> Result<(), Refusal>
    requires { (x : StampedView) → slot.old.value ≡ Some x → IsNext log.old x.key }
    ensures tells { OnOk result ((x : StampedView) (rests : List Rest) → slot.old.value ≡ Some x
        → AreLeft (E.meaning engine.now) S.rest olders.old rests → (found : Option StoredView) × (left : List Rest)
        × AreLeft (E.meaning engine.now) S.rest olders.new left
        × FindsOlder (E.meaning engine.now) x.key rests found left
        × Adds (Tells (E.meaning engine.now) (leaves_out_equal schema.now schema.now.options.engine) x.key found
        (stored_part x)) log.old log.new) }
    ensures none { OnOk result (slot.new.value ≡ None) }
    ensures memory { IfErr result (λ e. (x : StampedView) (rests : List Rest) → slot.old.value ≡ Some x
        → AreLeft (E.meaning engine.now) S.rest olders.old rests → HaveNoRefusal rests → e ≡ Memory) }
{
    let found = olders.find(alloc, engine, slot)?;
    let equal_out = leaves_out_equal(schema);
    let Some(row) = slot.take(alloc)? else {
        return Ok(());
    };
    let new = Stored {
        kind: row.kind,
        row: row.row,
    };
    tell(alloc, engine, equal_out, log, &row.key, found, new)?;
    Ok(())
}
