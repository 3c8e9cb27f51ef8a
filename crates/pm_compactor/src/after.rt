//! What follows the answers to a compactor's calls.
//!
//! The commit's first try is made once the last file was read, before a file is created: so what stands against it is
//! said before anything is written, and what follows a create takes no memory. What isn't handed on is dropped by name,
//! as in `pm_read_table`.

ghost use Rattle.std.specs.Prelude.{◌≡◌, ◌≢◌, ◌↔◌, ◌⊎◌, [], IfErr, IfOk, IsSomeAnd, IsTrue};
ghost use Rattle.pm_store.specs.Answers.{MayAnswer};
ghost use Rattle.pm_store.specs.declared.answer.Answer.TheVariants as answers;
ghost use Rattle.pm_values.specs.declared.refusal.Refusal.TheVariants.{Memory};
ghost use Rattle.pm_read_table.specs.Reader as views;
ghost use Rattle.pm_read_table.specs.View.{HasFolders};
ghost use Rattle.pm_group_files.specs.Reader as readers;
ghost use Rattle.pm_commit.specs.Committer as commits;
ghost use Rattle.pm_plan.specs.Planned.{CanMake, FitChosen, HasRoom, HasTold, IsPlanOf};
ghost use Rattle.pm_plan.specs.declared.planned.Planned.{Planned as PlannedView};
ghost use Rattle.pm_compactor.specs.Compactor.{AfterFiles, AfterGroups, AfterReader};
ghost use Rattle.pm_compactor.specs.Compactor.{AreLeftFor, Begins, CanCommit, FailsWith};
ghost use Rattle.pm_compactor.specs.Compactor.{Goes, IsCompactor, Opens, RefusesPlan, Shown, StartsFiles};
ghost use Rattle.pm_compactor.specs.declared.phase.Phase.TheVariants as phases;

use crate::create::create_next;
use crate::jobs::wanted_jobs;
use crate::phase::Phase;
use pm_base::Txt;
use pm_choice::{ChosenGroup, asked_in, chosen_in, rule_of};
use pm_commit::{Committer, new_compaction, used_path};
use pm_group_files::{GroupReader, are_files_read, has_group, read_files, take_groups};
use pm_machine::Machine;
use pm_made::Newest;
use pm_plan::{Asking, Planned, PlannedCommit, planned_of};
use pm_read_table::{View, ViewReader, into_view, is_view_ready};
use pm_schema::TableSchema;
use pm_store::Answer;
use pm_values::Refusal;
use std::alloc::Global;

/// The phase after an answer to a call of the view's reader.
pub(crate) fn after_view(
    alloc: Global,
    asking: Asking,
    reader: ViewReader,
    answer: Answer,
) -> Result<Phase, Refusal>
    requires may { IsSomeAnd (views.next_call reader) (λ call. MayAnswer call answer) }
    requires is_compactor { IsCompactor (phases.View asking reader) }
    ensures goes { IfOk result (Goes (phases.View asking reader) answer) }
    ensures refuses { IfErr result (Shown (phases.View asking reader) answer) }
{
    let mut reader = reader;
    match reader.take(alloc, answer) {
        Ok(()) => with_reader(alloc, asking, reader),
        Err(refusal) => {
            drop(asking);
            drop(reader);
            Err(refusal)
        }
    }
}

/// The phase with this reader of the view, or that once the view is ready.
fn with_reader(alloc: Global, asking: Asking, reader: ViewReader) -> Result<Phase, Refusal>
    ensures goes { IfOk result (AfterReader asking reader) }
    ensures memory { IfErr result (λ e. (e ≡ Memory) × views.IsReady reader) }
{
    if is_view_ready(&reader) {
        open(alloc, asking, into_view(reader))
    } else {
        Ok(Phase::View { asking, reader })
    }
}

/// What a view leads to: where a group has a choice the manifests are to be listed, else there is nothing to compact.
fn open(alloc: Global, asking: Asking, view: View) -> Result<Phase, Refusal>
    requires { HasFolders view }
    ensures opens { IfOk result (Opens asking view) }
    ensures memory { IfErr result (λ e. e ≡ Memory) }
{
    let View {
        id,
        snapshot,
        schema,
        listed,
        groups,
        manifests,
        live,
        ..
    } = view;
    drop(listed);
    let newest = Newest {
        id,
        snapshot,
        manifests,
        live,
    };
    let asked = asked_in(asking.full, &schema, &newest.snapshot);
    let rule = rule_of(&schema);
    match chosen_in(alloc, groups, asked, &rule) {
        Ok(chosen) => plan(alloc, asking, schema, newest, chosen),
        Err(_) => {
            drop(asking);
            drop(schema);
            drop(newest);
            Err(Refusal::Memory)
        }
    }
}

/// What these groups of a view lead to.
fn plan(
    alloc: Global,
    asking: Asking,
    schema: TableSchema,
    newest: Newest,
    chosen: Vec<ChosenGroup>,
) -> Result<Phase, Refusal>
    ensures none { chosen.items ≡ [] → IfOk result (λ later. later ≡ phases.Nothing) }
    ensures some { chosen.items ≢ [] → IfOk result (λ later. (p : PlannedView)
        × IsPlanOf asking schema newest chosen.items p × (later ≡ phases.Names p)) }
    ensures memory { IfErr result (λ e. e ≡ Memory) }
{
    if chosen.is_empty() {
        drop(asking);
        drop(schema);
        drop(newest);
        drop(chosen);
        return Ok(Phase::Nothing);
    }
    match planned_of(alloc, asking, schema, newest, chosen) {
        Ok(planned) => Ok(Phase::Names { planned }),
        Err(_) => Err(Refusal::Memory),
    }
}

/// The phase once these names were listed in the folder of manifests.
pub(crate) fn after_names(
    alloc: Global,
    planned: Planned,
    names: Vec<Txt>,
) -> Result<Phase, Refusal>
    requires { FitChosen planned.schema planned.left.items }
    ensures goes { IfOk result (Goes (phases.Names planned) (answers.Listed names)) }
    ensures refuses { IfErr result (Shown (phases.Names planned) (answers.Listed names)) }
{
    let used = used_path(alloc, &planned.names, names.as_slice());
    drop(names);
    match used {
        Ok(None) => start_files(alloc, planned),
        Ok(Some(path)) => {
            drop(planned);
            Err(Refusal::SessionUsed { path })
        }
        Err(_) => {
            drop(planned);
            Err(Refusal::Memory)
        }
    }
}

/// The phase in which the files of the groups are to be read.
fn start_files(alloc: Global, planned: Planned) -> Result<Phase, Refusal>
    requires { FitChosen planned.schema planned.left.items }
    ensures starts { IfOk result (StartsFiles planned) }
    ensures memory { IfErr result (λ e. e ≡ Memory) }
{
    let Ok(jobs) = wanted_jobs(alloc, &planned.schema, &planned.left) else {
        drop(planned);
        return Err(Refusal::Memory);
    };
    match planned.schema.copy(alloc) {
        Ok(schema) => {
            let files = read_files(alloc, schema, planned.newest.id, jobs);
            Ok(Phase::Files { planned, files })
        }
        Err(_) => {
            drop(planned);
            drop(jobs);
            Err(Refusal::Memory)
        }
    }
}

/// The phase after an answer to a call of the reader of files.
pub(crate) fn after_files(
    alloc: Global,
    planned: Planned,
    files: GroupReader,
    answer: Answer,
) -> Result<Phase, Refusal>
    requires may { IsSomeAnd (readers.next_call files) (λ call. MayAnswer call answer) }
    requires is_compactor { IsCompactor (phases.Files planned files) }
    ensures goes { IfOk result (Goes (phases.Files planned files) answer) }
    ensures refuses { IfErr result (Shown (phases.Files planned files) answer) }
{
    let mut files = files;
    match files.take(alloc, answer) {
        Ok(()) => with_files(alloc, planned, files),
        Err(refusal) => {
            drop(planned);
            drop(files);
            Err(refusal)
        }
    }
}

/// The phase with this reader of files: the groups that are whole are made into files and logs.
fn with_files(alloc: Global, planned: Planned, files: GroupReader) -> Result<Phase, Refusal>
    requires can_make { CanMake planned }
    requires can_commit { CanCommit planned }
    requires left { AreLeftFor planned.left.items files }
    ensures goes { IfOk result (AfterFiles planned files) }
    ensures refuses { IfErr result (FailsWith planned files) }
{
    if has_work(&files) {
        with_groups(alloc, planned, files)
    } else {
        Ok(Phase::Files { planned, files })
    }
}

/// Whether a group is whole, or all files were read.
fn has_work(files: &GroupReader) -> bool
    ensures { IsTrue result ↔ (readers.HasGroup files.now ⊎ readers.IsReady files.now) }
{
    has_group(files) || are_files_read(files)
}

/// The phase once groups are whole: their files and logs are made, and after the last group the commit is.
fn with_groups(alloc: Global, planned: Planned, files: GroupReader) -> Result<Phase, Refusal>
    requires whole { readers.HasGroup files ⊎ readers.IsReady files }
    requires can_make { CanMake planned }
    requires can_commit { CanCommit planned }
    requires left { AreLeftFor planned.left.items files }
    ensures goes { IfOk result (AfterFiles planned files) }
    ensures refuses { IfErr result (FailsWith planned files) }
{
    let (groups, files) = take_groups(alloc, files);
    match planned.rewrite_groups(alloc, groups) {
        Ok(planned) => after_groups(alloc, planned, files),
        Err(refusal) => {
            drop(files);
            Err(refusal)
        }
    }
}

/// The phase with what was made so far: more files are to be read, or the commit begins.
fn after_groups(alloc: Global, planned: Planned, files: GroupReader) -> Result<Phase, Refusal>
    requires can_make { CanMake planned }
    requires can_commit { CanCommit planned }
    requires done { readers.IsReady files → planned.left.items ≡ [] }
    ensures goes { IfOk result (AfterGroups planned files) }
    ensures refuses { IfErr result (λ e. readers.IsReady files
        × ((e ≡ Memory) ⊎ ((all : PlannedView) × HasTold planned all × RefusesPlan all e))) }
{
    if are_files_read(&files) {
        drop(files);
        tell(alloc, planned)
    } else {
        Ok(Phase::Files { planned, files })
    }
}

/// The phase once all of it was made: what is told is written, and the commit begins.
fn tell(alloc: Global, planned: Planned) -> Result<Phase, Refusal>
    requires can_make { CanMake planned }
    requires can_commit { CanCommit planned }
    requires done { planned.left.items ≡ [] }
    ensures goes { IfOk result (λ later. (all : PlannedView) × HasTold planned all × HasRoom all × Begins all later) }
    ensures refuses { IfErr result (λ e. (e ≡ Memory)
        ⊎ ((all : PlannedView) × HasTold planned all × RefusesPlan all e)) }
{
    match planned.tell(alloc) {
        Ok(planned) => begin(alloc, planned),
        Err(_) => Err(Refusal::Memory),
    }
}

/// The phase once what is told was written: the commit begins, and the files that were made are created before its own.
fn begin(alloc: Global, planned: Planned) -> Result<Phase, Refusal>
    requires can_commit { CanCommit planned }
    requires done { planned.left.items ≡ [] }
    requires told { planned.logs.items ≡ [] }
    ensures begins { IfOk result (Begins planned) }
    ensures refuses { IfErr result (λ e. (e ≡ Memory) ⊎ RefusesPlan planned e) }
{
    let PlannedCommit {
        author,
        names,
        schema,
        newest,
        plan,
        files,
    } = planned.into_commit();
    match new_compaction(alloc, schema, newest, author, plan, names) {
        Ok(committer) => Ok(create_next(committer, files)),
        Err(refusal) => {
            drop(files);
            Err(refusal)
        }
    }
}

/// The phase after an answer to a call of the committer.
pub(crate) fn after_commit(
    alloc: Global,
    committer: Committer,
    answer: Answer,
) -> Result<Phase, Refusal>
    requires may { IsSomeAnd (commits.next_call committer) (λ call. MayAnswer call answer) }
    ensures goes { IfOk result (Goes (phases.Commit committer) answer) }
    ensures refuses { IfErr result (Shown (phases.Commit committer) answer) }
{
    let mut committer = committer;
    match committer.take(alloc, answer) {
        Ok(()) => Ok(Phase::Commit { committer }),
        Err(refusal) => {
            drop(committer);
            Err(refusal)
        }
    }
}
