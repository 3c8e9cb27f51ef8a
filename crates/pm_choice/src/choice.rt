//! The groups that a compaction takes.

ghost use Rattle.std.specs.Prelude.{◌≡◌, ◌++◌, map, min, IfOk, OnOk};
ghost use Rattle.std.specs.BTreeMap.{IsOrdered};
ghost use Rattle.pm_values.specs.GroupOrder.{group_cmp};
ghost use Rattle.pm_levels.specs.Picking.{top_of};
ghost use Rattle.pm_levels.specs.Runs.{run_of};
ghost use Rattle.pm_choice.specs.Choice.{choices, chosen_of, left_runs, looked_runs, named_groups, taken_runs};

use pm_levels::{Asked, Levels, PickRule, RunFiles, pick};
use pm_options::Producer;
use pm_schema::TableSchema;
use pm_values::Group;
use std::alloc::{AllocError, Global};
use std::collections::BTreeMap;

/// A group that is compacted.
#[derive(Drop)]
pub struct ChosenGroup {
    pub group: Group,
    /// All of its runs, newest first.
    pub levels: Levels,
    /// How many of them go, the newest ones.
    pub take: usize,
    /// The level of the run that these become.
    pub out: u32,
    /// Whether that is the highest level; all runs go then.
    pub whole: bool,
}

impl ChosenGroup {
    /// The runs that go, newest first.
    pub fn taken(&self) -> &[RunFiles]
        ensures { map run_of result.now ≡ taken_runs self.now }
    {
        let runs = self.levels.runs();
        let count = self.take.min(runs.len());
        &runs[..count]
    }

    /// The runs that stay, newest first.
    pub fn left(&self) -> &[RunFiles]
        ensures { map run_of result.now ≡ left_runs self.now }
    {
        let runs = self.levels.runs();
        let count = self.take.min(runs.len());
        &runs[count..]
    }

    /// Those of them in which old values are looked up, where the table's producer does that.
    pub fn looked(&self, schema: &TableSchema) -> &[RunFiles]
        ensures { map run_of result.now ≡ looked_runs schema.now self.now }
    {
        match schema.options.producer {
            Producer::Lookup => self.left(),
            _ => &self.levels.runs()[..0],
        }
    }
}

/// The groups with a choice, where so much is asked of each.
pub fn chosen_in(
    alloc: Global,
    groups: BTreeMap<Group, Levels>,
    asked: Asked,
    rule: &PickRule,
) -> Result<Vec<ChosenGroup>, AllocError>
    ensures chosen { IfOk result (λ chosen. chosen.items ≡ choices asked rule.now groups.entries) }
    ensures ordered { IsOrdered group_cmp groups }
{
    let mut chosen = Vec::new(alloc);
    for (group, levels) in groups {
        put_chosen(alloc, &mut chosen, group, levels, asked, rule)?;
    }
    Ok(chosen)
}

/// Puts a group to those before it, where there is a choice for it.
fn put_chosen(
    alloc: Global,
    chosen: &mut Vec<ChosenGroup>,
    group: Group,
    levels: Levels,
    asked: Asked,
    rule: &PickRule,
) -> Result<(), AllocError>
    ensures { OnOk result (chosen.new.items ≡ chosen.old.items ++ chosen_of asked rule.now (group, levels)) }
{
    let sizes = levels.sizes(alloc)?;
    if let Some(choice) = pick(sizes.as_slice(), asked, rule) {
        chosen.push(ChosenGroup {
            group,
            levels,
            take: choice.take,
            out: choice.out,
            whole: choice.out == top_of(rule),
        })?;
    }
    Ok(())
}

/// The highest level.
fn top_of(rule: &PickRule) -> u32
    ensures { result ≡ top_of rule.now }
{
    rule.levels.saturating_sub(1)
}

/// The groups as an entry of a history names them: each with whether its runs go to the highest level.
pub fn groups_in(alloc: Global, chosen: &[ChosenGroup]) -> Result<Vec<(Group, bool)>, AllocError>
    ensures { IfOk result (λ groups. groups.items ≡ named_groups chosen.now) }
{
    let mut groups = Vec::with_capacity(alloc, chosen.len())?;
    for one in chosen {
        groups.push((one.group.copy(alloc)?, one.whole))?;
    }
    Ok(groups)
}
