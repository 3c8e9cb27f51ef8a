//! From which number each group's next rows are counted.

ghost use Rattle.std.specs.Prelude.{◌≡◌, ◌⊎◌, ◌≤◌, ◌+◌, ◌^◌, cond, max, length, true, false, IfOk, IfErr, OnOk};
ghost use Rattle.std.specs.List.{AllByRecursion};
ghost use Rattle.std.specs.Ordering.{eq_by_cmp};
ghost use Rattle.pm_values.specs.GroupOrder.{group_cmp};
ghost use Rattle.pm_values.specs.declared.group.Group.{Group as GroupView};
ghost use Rattle.pm_values.specs.declared.refusal.Refusal.TheVariants.{Memory};
ghost use Rattle.pm_schema.specs.Folder.{FitsPartition};
ghost use Rattle.pm_manifest.specs.declared.entry.Entry.{Entry as EntryView};
ghost use Rattle.pm_run.specs.Row.{most_sequence};
ghost use Rattle.pm_write.specs.Batch.{logs_in, GroupRows};
ghost use Rattle.pm_write.specs.Files.{after_names, next_of, no_sequence};
ghost use Rattle.pm_write.specs.declared.files.NewFile.{NewFile as FileView};
ghost use Rattle.pm_made.specs.Files.{AreNumbered};
ghost use Rattle.pm_made.specs.Refusals.{above_numbers, next_number};

use pm_manifest::Entry;
use pm_schema::TableSchema;
use pm_values::{Group, Names, Refusal};
use pm_write::{Batch, NewFile};
use std::alloc::{AllocError, Global};
use std::collections::BTreeMap;

/// The next number of each group that has live files.
fn next_numbers(alloc: Global, live: &[Entry]) -> Result<BTreeMap<Group, u64>, AllocError>
    requires { AllByRecursion (λ (e : EntryView). e.file.max_seq ≤ most_sequence) live.now }
    ensures { IfOk result (λ next. (g : GroupView) → next_of next g ≡ next_number live.now g) }
{
    let mut next = BTreeMap::new(alloc);
    for entry in live {
        count_file(alloc, &mut next, entry)?;
    }
    Ok(next)
}

/// The next number of a group so far.
fn next_of(next: &BTreeMap<Group, u64>, group: &Group) -> u64
    ensures { result ≡ next_of next.now group.now }
{
    next.get(group).copied().unwrap_or(0)
}

/// Counts a live file.
fn count_file(
    alloc: Global,
    next: &mut BTreeMap<Group, u64>,
    entry: &Entry,
) -> Result<(), AllocError>
    requires { entry.now.file.max_seq ≤ most_sequence }
    ensures { OnOk result ((g : GroupView) → next_of next.new g
        ≡ cond (eq_by_cmp group_cmp entry.now.group g) (max (entry.now.file.max_seq + 1) (next_of next.old g))
        (next_of next.old g)) }
{
    let number = entry.file.max_seq + 1;
    if next_of(next, &entry.group) < number {
        next.insert(entry.group.copy(alloc)?, number)?;
    }
    Ok(())
}

/// The new files of a batch, each group's rows counted from its next number.
pub(crate) fn number_files(
    alloc: Global,
    schema: &TableSchema,
    live: &[Entry],
    batch: &mut Batch,
    names: &mut Names,
) -> Result<Vec<NewFile>, Refusal>
    requires folders { AllByRecursion (λ (e : GroupView × GroupRows). FitsPartition schema.now e.0) batch.old }
    requires numbers { AllByRecursion (λ (e : EntryView). e.file.max_seq ≤ most_sequence) live.now }
    requires count { names.old.count + (length batch.old + length (logs_in batch.old)) ≤ 2 ^ 62 }
    ensures files { IfOk result (λ files. AreNumbered schema.now live.now names.old batch.old files.items) }
    ensures folders { IfOk result (λ files.
        AllByRecursion (λ (x : FileView). FitsPartition schema.now x.group) files.items) }
    ensures many { IfOk result (λ files. length files.items ≡ length batch.old + length (logs_in batch.old)) }
    ensures names { IfOk result (λ files. names.new ≡ after_names (length files.items) names.old) }
    ensures same { names.new ≡ record names.old { count = names.new.count } }
    ensures rises { names.old.count ≤ names.new.count }
    ensures ok { OnOk result (above_numbers live.now batch.old ≡ false) }
    ensures err { IfErr result (λ e. (e ≡ Memory) ⊎ ((above_numbers live.now batch.old ≡ true) × (e ≡ no_sequence))) }
    ensures kept { batch.new ≡ batch.old }
{
    let next = next_numbers(alloc, live)?;
    match batch.files(alloc, schema, &next, names) {
        Ok(files) => Ok(files),
        Err(refusal) => Err(refusal),
    }
}
