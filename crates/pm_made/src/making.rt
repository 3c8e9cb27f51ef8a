//! The files and the snapshot of a commit.

ghost use Rattle.std.specs.Prelude.{◌≡◌, ◌⊎◌, ◌+◌, ◌≤◌, ◌^◌, length, IfOk, IfErr, OnOk, Some, None};
ghost use Rattle.std.specs.List.{AllByRecursion};
ghost use Rattle.pm_values.specs.declared.refusal.Refusal.TheVariants.{Memory};
ghost use Rattle.pm_manifest.specs.declared.entry.Entry.{Entry as EntryView};
ghost use Rattle.pm_run.specs.Row.{most_sequence};
ghost use Rattle.pm_made.specs.Files.{IsMadeOf};
ghost use Rattle.pm_made.specs.Intent.{most_files, FitsGroups, IsMadeFor};
ghost use Rattle.pm_made.specs.Refusals.{refusal_of};

use crate::data::{NewDelta, new_delta};
use crate::intent::Intent;
use crate::limits::{judge_fence, judge_files, next_id};
use crate::manifests::all_lists;
use crate::newest::{Author, Made, Newest};
use crate::removed::{judge_removed, removed_of};
use crate::snapshot::new_text;
use pm_schema::TableSchema;
use pm_values::{Names, Refusal};
use std::alloc::Global;

/// What a commit puts into the folder after the newest snapshot: files of rows, a merged manifest if there is one, the
/// manifests of the delta and of its changelog files, the lists of them, the base list, and the snapshot. An append
/// takes time linear in the rows of its batch and of its logs; a compaction copies its entries, and looks up each live
/// file among those that it takes away, and each of these among the live ones. Either takes time linear in the live
/// files but for a look into the groups at each. Each file that it makes takes the next name. The intent stays for
/// another try.
#[tactic(auto, using(crate::proofs::IntentLemmas::batch_within))]
pub fn make(
    alloc: Global,
    schema: &TableSchema,
    newest: &Newest,
    author: &Author,
    intent: &mut Intent,
    names: &mut Names,
) -> Result<Made, Refusal>
    requires folders { FitsGroups schema.now intent.old }
    requires numbers { AllByRecursion (λ (e : EntryView). e.file.max_seq ≤ most_sequence) newest.now.live.items }
    requires made_for { IsMadeFor intent.old }
    requires based { names.old.base ≡ author.now.base }
    requires count { names.old.count + most_files intent.old ≤ 2 ^ 62 }
    ensures made { IfOk result (IsMadeOf schema.now newest.now author.now intent.old names.old) }
    ensures allowed { OnOk result (refusal_of newest.now author.now intent.old ≡ None) }
    ensures refused { IfErr result (λ e. (e ≡ Memory) ⊎ (refusal_of newest.now author.now intent.old ≡ Some e)) }
    ensures kept { intent.new ≡ intent.old }
    ensures names { names.new ≡ record names.old { count = names.new.count } }
    ensures rises { names.old.count ≤ names.new.count }
    ensures counted { IfOk result (λ made. names.new.count ≡ names.old.count + length made.files.items) }
    ensures few { IfOk result (λ made. length made.files.items ≤ most_files intent.old) }
{
    judge_fence(newest, author)?;
    judge_removed(alloc, &newest.live, removed_of(intent))?;
    judge_files(alloc, newest.live.len(), intent)?;
    let NewDelta {
        entries,
        changes,
        mut files,
    } = new_delta(alloc, schema, newest, intent, names)?;
    let id = next_id(alloc, newest.id)?;
    let lists = all_lists(alloc, schema, newest, &entries, &changes, names, &mut files)?;
    let text = new_text(
        alloc, schema, newest, author, intent, &entries, &changes, lists,
    )?;
    Ok(Made { id, files, text })
}
