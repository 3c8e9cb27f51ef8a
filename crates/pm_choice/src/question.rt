//! How much is asked of a compaction.

ghost use Rattle.std.specs.Prelude.{◌≡◌};
ghost use Rattle.pm_choice.specs.Question.{full_appends, is_due, question, rule_of};

use pm_levels::{Asked, PickRule};
use pm_options::Producer;
use pm_schema::TableSchema;
use pm_snapshot::Snapshot;

/// How much is asked of each group of a view of the table at a snapshot, or at its origin: all runs, where the word
/// says so or enough commits appended rows since they were last asked for.
pub fn asked_in(full: bool, schema: &TableSchema, snapshot: &Option<Snapshot>) -> Asked
    ensures { result ≡ question full schema.now snapshot.now }
{
    if full || is_due(schema.options.delta_commits, snapshot) {
        return Asked::Full;
    }
    match schema.options.producer {
        Producer::Lookup => Asked::LevelZero,
        _ => Asked::No,
    }
}

/// Whether at least so many commits appended rows since the view of the last compaction that was asked for in full.
fn is_due(commits: Option<u32>, snapshot: &Option<Snapshot>) -> bool
    ensures { result ≡ is_due commits snapshot.now }
{
    match (commits, snapshot) {
        (Some(least), Some(x)) => u64::from(least) <= x.appends.saturating_sub(x.full),
        _ => false,
    }
}

/// How many commits appended rows up to the view, where all runs are asked for.
pub fn full_in(asked: Asked, snapshot: &Option<Snapshot>) -> Option<u64>
    ensures { result ≡ full_appends asked snapshot.now }
{
    match (asked, snapshot) {
        (Asked::Full, Some(x)) => Some(x.appends),
        (Asked::Full, None) => Some(0),
        _ => None,
    }
}

/// By which options of the table runs are chosen.
pub fn rule_of(schema: &TableSchema) -> PickRule
    ensures { result ≡ rule_of schema.now }
{
    PickRule {
        trigger: schema.options.trigger,
        amplification: schema.options.amplification,
        ratio: schema.options.ratio,
        levels: schema.options.levels,
    }
}
