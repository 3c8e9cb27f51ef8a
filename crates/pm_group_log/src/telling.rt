//! The log of a group.

ghost use Rattle.std.specs.Prelude.{◌≡◌, ◌≢◌, ℕ, All, List, IfErr, IfOk, true};
ghost use Rattle.pm_values.specs.declared.refusal.Refusal.TheVariants.{Memory};
ghost use Rattle.pm_schema.specs.Folder.{FitsPartition};
ghost use Rattle.pm_engine.specs.Covers.{IsRising};
ghost use Rattle.pm_engines.specs.TableEngine.{HasEngine};
ghost use Rattle.pm_options.specs.declared.kinds.Producer.TheVariants as producers;
ghost use Rattle.pm_group_log.specs.Told.{IsToldOf, RefusesTelling};

use crate::kept::runs_with;
use crate::sides::side_of;
use pm_base::Blob;
use pm_changelog::GroupLog;
use pm_choice::ChosenGroup;
use pm_compaction_log::{full_log, lookup_log};
use pm_engines::TableEngine;
use pm_lookup::Lookup;
use pm_options::Producer;
use pm_scan_rows::StoredRun;
use pm_schema::TableSchema;
use pm_values::Refusal;
use std::alloc::Global;

/// How many blocks are kept while keys are looked up.
const BLOCKS: usize = 64;

/// What a compaction tells of a chosen group, of which this was read: its runs that go, the oldest first, and with the
/// producer of look-ups the files of the runs that stay. A refusal beside `Memory` is that of a file in which a key
/// with a new row is looked up.
pub fn group_log(
    alloc: Global,
    schema: &TableSchema,
    chosen: &ChosenGroup,
    runs: &[StoredRun],
    kept: Vec<Blob>,
) -> Result<GroupLog, Refusal>
    requires engine { HasEngine schema.now }
    requires fits { FitsPartition schema.now chosen.now.group }
    requires rising { All IsRising runs.now }
    ensures tells { IfOk result
        (IsToldOf schema.now chosen.now (record { runs = runs.now; kept = kept.items })) }
    ensures refuses { IfErr result (λ e. e ≢ Memory
        → RefusesTelling schema.now chosen.now (record { runs = runs.now; kept = kept.items }) e) }
{
    match schema.options.producer {
        Producer::Lookup => looked_log(alloc, schema, chosen, runs, kept),
        Producer::FullCompaction => {
            drop(kept);
            if chosen.whole {
                whole_log(alloc, schema, chosen, runs)
            } else {
                Ok(GroupLog::none(alloc))
            }
        }
        Producer::None | Producer::Input => {
            drop(kept);
            Ok(GroupLog::none(alloc))
        }
    }
}

/// The log of the rows of level 0 upon the others, of which those that stay are looked up.
fn looked_log(
    alloc: Global,
    schema: &TableSchema,
    chosen: &ChosenGroup,
    runs: &[StoredRun],
    kept: Vec<Blob>,
) -> Result<GroupLog, Refusal>
    requires engine { HasEngine schema.now }
    requires fits { FitsPartition schema.now chosen.now.group }
    requires rising { All IsRising runs.now }
    requires producer { schema.now.options.producer ≡ producers.Lookup }
    ensures tells { IfOk result
        (IsToldOf schema.now chosen.now (record { runs = runs.now; kept = kept.items })) }
    ensures refuses { IfErr result (λ e. e ≢ Memory
        → RefusesTelling schema.now chosen.now (record { runs = runs.now; kept = kept.items }) e) }
{
    let stay = runs_with(alloc, schema, chosen, kept)?;
    let mut under = Lookup::new(alloc, stay, BLOCKS)?;
    let engine = TableEngine::of_schema(alloc, schema)?;
    let go = chosen.taken();
    let newer = side_of(alloc, go, runs, true, 1)?;
    let older = side_of(alloc, go, runs, false, 1)?;
    lookup_log(alloc, &engine, schema, newer, older, &mut under)
}

/// The log of the rows below the highest level upon those there.
fn whole_log(
    alloc: Global,
    schema: &TableSchema,
    chosen: &ChosenGroup,
    runs: &[StoredRun],
) -> Result<GroupLog, Refusal>
    requires engine { HasEngine schema.now }
    requires rising { All IsRising runs.now }
    requires producer { schema.now.options.producer ≡ producers.FullCompaction }
    requires whole { chosen.now.whole ≡ true }
    ensures tells { IfOk result (λ log. (kept : List (List ℕ))
        → IsToldOf schema.now chosen.now (record { runs = runs.now; kept = kept }) log) }
    ensures memory { IfErr result (λ e. e ≡ Memory) }
{
    let engine = TableEngine::of_schema(alloc, schema)?;
    let top = schema.options.levels.saturating_sub(1);
    let go = chosen.taken();
    let newer = side_of(alloc, go, runs, true, top)?;
    let older = side_of(alloc, go, runs, false, top)?;
    let log = full_log(alloc, &engine, schema, newer, older)?;
    Ok(log)
}
