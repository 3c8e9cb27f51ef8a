//! The rows of a batch.

ghost use Rattle.std.specs.Prelude.{◌≡◌, ◌↔◌, ◌+◌, ◌≤◌, ◌^◌, [], length, map, false, true, All, IfErr, IfOk, IfSome, IsTrue, OnOk};
ghost use Rattle.std.specs.BTreeMap.{get_by};
ghost use Rattle.std.specs.List.{AllByRecursion, AllZip};
ghost use Rattle.std.specs.List.Sorted.{IsStrictlySortedBy};
ghost use Rattle.std.specs.Map.{keys_of};
ghost use Rattle.pm_values.specs.GroupOrder.{group_cmp};
ghost use Rattle.pm_values.specs.declared.group.Group.{Group as GroupView};
ghost use Rattle.pm_values.specs.declared.refusal.Refusal.TheVariants.{Memory};
ghost use Rattle.pm_engine.specs.Covers.{row_of};
ghost use Rattle.pm_engines.specs.TableEngine.{schema_of};
ghost use Rattle.pm_run.specs.Writing.{CountFrom, HasOwnKey};
ghost use Rattle.pm_write.specs.Batch.{logs_in, IsBatchOf, KeepsLog, ReadsBatch};
ghost use Rattle.pm_write.specs.Files.{exceeds, AreNewFiles, RefusesFiles};
ghost use Rattle.pm_write.specs.Held.{IsHeld, IsHeldOf, IsOwn};
ghost use Rattle.pm_write.specs.Taken.{all_taken, IsTakenRow};

use crate::files::{NewFile, exceeds, no_sequence, write_files};
use crate::held::HeldRows;
use crate::taken::taken_rows;
use pm_changelog::{GroupLog, input_log};
use pm_engine::{reduce, stored_law};
use pm_engines::TableEngine;
use pm_group_rows::cut_by_group;
use pm_input::InputLines;
use pm_options::Producer;
use pm_packed::PackedRows;
use pm_schema::TableSchema;
use pm_values::{Group, Names, Refusal};
use std::alloc::{AllocError, Global};
use std::collections::BTreeMap;
use std::marker::Model;

/// The rows that a table took of a batch, by rising group, packed. Their numbers count each group's rows from 0.
pub struct Batch {
    groups: Vec<HeldRows>,
}

impl Drop for Batch {
    fn drop(self) {
        let Batch { groups } = self;
    }
}

impl Model for Batch {
    ghost use Rattle.pm_write.specs.Batch.{Groups};
    ghost use Rattle.pm_write.specs.Held.{all_groups, AreHeld};

    ghost Value = { Groups };

    ghost view = { λ b. all_groups b.groups.items };

    ghost invariant = { λ b. AreHeld b.groups.items };
}

impl Batch {
    /// The rows that the table takes of lines that aren't blank, or the first refusal: a bad line, a row that the
    /// engine refuses or of whose partition a text is too long, or a line for which a batch has no room. It takes time
    /// linear in the lines, but for the sort by key and for finding a row's group among those so far. The lines are let go as their rows are taken, one half and then the other.
    pub fn read(
        alloc: Global,
        schema: &TableSchema,
        engine: &TableEngine,
        lines: InputLines,
    ) -> Result<Batch, Refusal>
        requires some { 1 ≤ schema.now.options.bucket }
        requires own { schema_of engine.now ≡ schema.now }
        ensures { ReadsBatch schema.now result (all_taken schema.now lines) }
    {
        let rows = taken_rows(alloc, schema, engine, lines)?;
        Ok(of_rows(alloc, engine, rows)?)
    }

    /// Whether the table took no row.
    pub fn is_empty(&self) -> bool
        ensures { IsTrue result ↔ (self.now ≡ []) }
    {
        self.groups.is_empty()
    }

    /// How many groups have rows, and so how many data files they become.
    pub fn group_count(&self) -> usize
        ensures { result ≡ length self.now }
    {
        self.groups.len()
    }

    /// The files of the groups, in their order, whose rows are counted from the groups' next numbers, 0 where a group
    /// has none: the data files, and behind them the changelog files. Where this needs a number above the greatest, no
    /// file is made and no name is taken.
    pub fn files(
        &mut self,
        alloc: Global,
        schema: &TableSchema,
        next: &BTreeMap<Group, u64>,
        names: &mut Names,
    ) -> Result<Vec<NewFile>, Refusal>
        requires count { names.old.count + (length self.old + length (logs_in self.old)) ≤ 2 ^ 62 }
        ensures files { IfOk result (λ files.
            AreNewFiles schema.now next.now names.old self.old files.items) }
        ensures within { OnOk result (exceeds next.now self.old ≡ false) }
        ensures refused { IfErr result (RefusesFiles next.now self.old) }
        ensures kept { self.new ≡ self.old }
        ensures names { names.new ≡ record names.old { count = names.new.count } }
        ensures counted { names.old.count ≤ names.new.count }
        ensures taken { IfOk result (λ files. names.new.count ≡ names.old.count + length files.items) }
        ensures untaken { exceeds next.now self.old ≡ true → names.new ≡ names.old }
    {
        if exceeds(&self.groups, next) {
            return Err(no_sequence(alloc)?);
        }
        write_files(alloc, schema, &self.groups, next, names)
    }
}

/// The batch of rows.
fn of_rows(alloc: Global, engine: &TableEngine, rows: PackedRows) -> Result<Batch, AllocError>
    requires some { 1 ≤ (schema_of engine.now).options.bucket }
    requires taken { AllByRecursion (IsTakenRow (schema_of engine.now)) rows }
    requires numbers { CountFrom 0 rows }
    ensures { IfOk result (IsBatchOf (schema_of engine.now) (map row_of rows)) }
{
    let own = cut_by_group(alloc, engine.schema(), rows)?;
    let groups = held_groups(alloc, engine, own)?;
    Ok(Batch { groups })
}

/// The rows of groups, as they are kept.
fn held_groups(
    alloc: Global,
    engine: &TableEngine,
    groups: BTreeMap<Group, PackedRows>,
) -> Result<Vec<HeldRows>, AllocError>
    requires { (g : GroupView) → IfSome (get_by (group_cmp g) groups) (IsOwn (schema_of engine.now)) }
    ensures rows { IfOk result (λ held. AllZip (IsHeldOf (schema_of engine.now)) groups.entries held.items) }
    ensures held { IfOk result (λ held. All IsHeld held.items) }
    ensures ordered { IsStrictlySortedBy group_cmp (keys_of groups.entries) }
{
    let mut held = Vec::new(alloc);
    for (group, rows) in groups {
        held.push(held_rows(alloc, engine, group, rows)?)?;
    }
    Ok(held)
}

/// The rows of a group, as they are kept.
fn held_rows(
    alloc: Global,
    engine: &TableEngine,
    group: Group,
    rows: PackedRows,
) -> Result<HeldRows, AllocError>
    requires { IsOwn (schema_of engine.now) rows }
    ensures rows { IfOk result (IsHeldOf (schema_of engine.now) (group, rows)) }
    ensures held { IfOk result IsHeld }
{
    stored_law();
    let count = rows.len() as u64;
    let log = log_of(alloc, engine.schema(), &rows)?;
    let run = reduce(alloc, engine, rows)?;
    Ok(HeldRows {
        group,
        count,
        run,
        log,
    })
}

/// The log that is kept of the rows that a table of the schema took of a group.
fn log_of(alloc: Global, schema: &TableSchema, rows: &PackedRows) -> Result<GroupLog, AllocError>
    requires own { AllByRecursion (HasOwnKey schema.now) rows.now }
    ensures { IfOk result (KeepsLog schema.now.options.producer schema.now (map row_of rows.now)) }
{
    match schema.options.producer {
        Producer::Input => input_log(alloc, rows),
        _ => Ok(GroupLog::none(alloc)),
    }
}
