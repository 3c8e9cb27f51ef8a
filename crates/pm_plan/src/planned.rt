//! What a compaction has planned, and what it has made so far.

ghost use Rattle.std.specs.Prelude.{◌≡◌, ◌≢◌, ◌∷◌, ◌≤◌, [], All, IfErr, IfOk, OnOk, length, map};
ghost use Rattle.std.specs.List.{AllByRecursion};
ghost use Rattle.pm_engine.specs.Covers.{IsRising};
ghost use Rattle.pm_engine.specs.OfSchema.{meaning_of};
ghost use Rattle.pm_engines.specs.TableEngine.{HasEngine};
ghost use Rattle.pm_merge.specs.Merging.{rests_of, runs_in};
ghost use Rattle.pm_scan_rows.specs.Stored.{AreGivenFor, rest_of};
ghost use Rattle.pm_scan_rows.specs.Group.{read_of, reads_of, runs_read};
ghost use Rattle.pm_schema.specs.Folder.{FitsPartition};
ghost use Rattle.pm_compact.specs.Rewritten.{AreRewritten};
ghost use Rattle.pm_values.specs.declared.refusal.Refusal.TheVariants.{Memory};
ghost use Rattle.pm_choice.specs.Choice.{live_entry};
ghost use Rattle.pm_compaction.specs.Plan.{group_file};
ghost use Rattle.pm_group_log.specs.Told.{RefusesTelling};
ghost use Rattle.pm_plan.specs.Planned.{AllRewritten, AddsFiles, HasRoom, HasTold, IsCommitOf, IsPlanOf, CanMake};
ghost use Rattle.pm_plan.specs.Planned.{LogsGroup, RefusesFirst, RefusesSome, RewritesFirst, TellsGroup, named_by};

use pm_base::{Blob, Txt};
use pm_changelog::{GroupLog, write_log};
use pm_choice::{ChosenGroup, asked_in, full_in, groups_in, removed_in};
use pm_compact::{drops_by_kind_law, rewrite};
use pm_engines::TableEngine;
use pm_group_log::group_log;
use pm_made::{Author, Newest, Plan};
use pm_manifest::Entry;
use pm_merge::given_law;
use pm_model_contents::data_path;
use pm_put::CommitFile;
use pm_run::RunFile;
use pm_run_form::TableForm;
use pm_scan_rows::{ReadGroup, StoredRun, WrittenRows, written_sources};
use pm_schema::TableSchema;
use pm_values::{Group, Names, Refusal};
use std::alloc::{AllocError, Global};
use std::collections::VecDeque;
use std::mem;

/// More files than this are answered as out of memory.
const MOST_FILES: usize = 1 << 32;

/// What is asked of a compaction: whether in full by the word, who runs it under which names, and when, in milliseconds
/// from 1970-01-01.
#[derive(Drop)]
pub struct Asking {
    pub full: bool,
    pub user: Txt,
    pub names: Names,
    pub now_millis: i64,
}

/// A compaction with a choice: who commits, of which view, and what goes; the groups whose files are still to be read,
/// of which the first is being read; of the others what was made, as entries and as files, and what is told; and the
/// entries of changelog files, once these were written.
#[derive(Drop)]
pub struct Planned {
    pub author: Author,
    pub names: Names,
    pub schema: TableSchema,
    pub newest: Newest,
    /// Where all runs were asked for, the appends of the view.
    pub full: Option<u64>,
    pub groups: Vec<(Group, bool)>,
    pub removed: Vec<Entry>,
    pub left: VecDeque<ChosenGroup>,
    pub added: Vec<Entry>,
    pub logs: Vec<(Group, GroupLog)>,
    pub changes: Vec<Entry>,
    pub files: VecDeque<CommitFile>,
}

/// What was planned once all of it was made: who commits, the table as its view has it, what the commit is for, and the
/// files that are to be created before that.
#[derive(Drop)]
pub struct PlannedCommit {
    pub author: Author,
    pub names: Names,
    pub schema: TableSchema,
    pub newest: Newest,
    pub plan: Plan,
    pub files: VecDeque<CommitFile>,
}

/// The plan of these groups of a view, before a file of theirs is read, where the word and the table's options say how
/// much is asked of each. The view is the base of the commit and of its names.
pub fn planned_of(
    alloc: Global,
    asking: Asking,
    schema: TableSchema,
    newest: Newest,
    chosen: Vec<ChosenGroup>,
) -> Result<Planned, AllocError>
    ensures { IfOk result (IsPlanOf asking schema newest chosen.items) }
{
    let removed = removed_in(alloc, &schema, chosen.as_slice())?;
    let groups = groups_in(alloc, chosen.as_slice())?;
    let asked = asked_in(asking.full, &schema, &newest.snapshot);
    let full = full_in(asked, &newest.snapshot);
    let Asking {
        user,
        mut names,
        now_millis,
        ..
    } = asking;
    names.set_base(newest.id);
    let author = Author {
        user,
        identifier: i64::MAX,
        base: newest.id,
        time: now_millis,
    };
    Ok(Planned {
        author,
        names,
        schema,
        newest,
        full,
        groups,
        removed,
        left: VecDeque::from(chosen),
        added: Vec::new(alloc),
        logs: Vec::new(alloc),
        changes: Vec::new(alloc),
        files: VecDeque::new(alloc),
    })
}

impl Planned {
    /// Makes the runs of groups that were read into files, and what is told of each into its log: those of the first
    /// groups that are left. After a refusal the plan is gone, as a group may be off it of which no file is there. One
    /// beside `Memory` is that of a file in which an old value is looked up.
    pub fn rewrite_groups(self, alloc: Global, groups: Vec<ReadGroup>) -> Result<Planned, Refusal>
        requires ready { CanMake self }
        requires rising { All (All IsRising) (runs_read (reads_of groups.items)) }
        requires few { length groups.items ≤ length self.left.items }
        ensures rewritten { IfOk result (AllRewritten self (reads_of groups.items)) }
        ensures ready { IfOk result CanMake }
        ensures refuses { IfErr result (λ e. e ≢ Memory → RefusesSome self (reads_of groups.items) e) }
    {
        let mut planned = self;
        for read in groups {
            planned.rewrite_first(alloc, read)?;
        }
        Ok(planned)
    }

    /// Makes what is told of the first group that is left into its log, and its runs into files at its level.
    fn rewrite_first(&mut self, alloc: Global, read: ReadGroup) -> Result<(), Refusal>
        requires ready { CanMake self.old }
        requires rising { All IsRising read.runs.items }
        requires some { self.old.left.items ≢ [] }
        ensures rewritten { OnOk result (RewritesFirst self.old (read_of read) self.new) }
        ensures ready { OnOk result (CanMake self.new) }
        ensures refuses { IfErr result (λ e. e ≢ Memory → RefusesFirst self.old (read_of read) e) }
    {
        let Some(chosen) = self.left.pop_front() else {
            unreachable!()
        };
        let ReadGroup { runs, kept } = read;
        let rows = runs.as_slice();
        self.log_group(alloc, &chosen, rows, kept)?;
        let made = self.make(alloc, &chosen, rows)?;
        self.put_files(alloc, &chosen.group, made)?;
        if self.files.len() > MOST_FILES {
            return Err(Refusal::Memory);
        }
        Ok(())
    }

    /// Puts what is told of a group to the logs; the bytes that were kept of it are let go before a file is made.
    fn log_group(
        &mut self,
        alloc: Global,
        chosen: &ChosenGroup,
        runs: &[StoredRun],
        kept: Vec<Blob>,
    ) -> Result<(), Refusal>
        requires engine { HasEngine self.old.schema }
        requires fits { FitsPartition self.old.schema chosen.now.group }
        requires rising { All IsRising runs.now }
        ensures logs { OnOk result
            (LogsGroup self.old chosen.now (record { runs = runs.now; kept = kept.items }) self.new) }
        ensures refuses { IfErr result (λ e. e ≢ Memory
            → RefusesTelling self.old.schema chosen.now (record { runs = runs.now; kept = kept.items }) e) }
    {
        let log = group_log(alloc, &self.schema, chosen, runs, kept)?;
        self.logs.push((chosen.group.copy(alloc)?, log))?;
        Ok(())
    }

    /// The files that a group's runs become at its level, with the next names: without the droppable rows where all of
    /// its runs go.
    #[tactic(auto, using(crate::proofs::MakeLemmas::given_for))]
    fn make(
        &mut self,
        alloc: Global,
        chosen: &ChosenGroup,
        runs: &[StoredRun],
    ) -> Result<Vec<RunFile>, Refusal>
        requires engine { HasEngine self.old.schema }
        requires room { HasRoom self.old }
        requires rising { All IsRising runs.now }
        ensures files { IfOk result (λ files. AreRewritten self.old.schema (meaning_of self.old.schema) chosen.now.whole
            chosen.now.out self.old.names (rests_of runs.now) files.items) }
        ensures named { IfOk result (λ files. self.new ≡ named_by files.items self.old) }
        ensures memory { IfErr result (λ e. e ≡ Memory) }
    {
        drops_by_kind_law();
        given_law();
        let engine = TableEngine::of_schema(alloc, &self.schema)?;
        let form = TableForm::of(alloc, &self.schema)?;
        let rows = rows_of(alloc, runs, &form)?;
        let names = &mut self.names;
        rewrite(
            alloc,
            &engine,
            &self.schema,
            rows,
            chosen.out,
            chosen.whole,
            names,
        )
    }

    /// Puts files that were made of a group to the others.
    fn put_files(
        &mut self,
        alloc: Global,
        group: &Group,
        made: Vec<RunFile>,
    ) -> Result<(), AllocError>
        requires { FitsPartition self.old.schema group.now }
        ensures { OnOk result (AddsFiles self.old group.now made.items self.new) }
    {
        for file in made {
            self.put_file(alloc, group, file)?;
        }
        Ok(())
    }

    /// Puts a file that was made of a group to the others.
    fn put_file(&mut self, alloc: Global, group: &Group, file: RunFile) -> Result<(), AllocError>
        requires { FitsPartition self.old.schema group.now }
        ensures { OnOk result (AddsFiles self.old group.now (file ∷ []) self.new) }
    {
        let (entry, made) = entered(alloc, &self.schema, group, file)?;
        self.files.push_back(made)?;
        self.added.push(entry)?;
        Ok(())
    }

    /// Writes what is told of the groups, one after another: a changelog file of each of which something is told, with
    /// the next names. The files stand behind those of the groups' rows.
    pub fn tell(self, alloc: Global) -> Result<Planned, AllocError>
        requires ready { CanMake self }
        ensures told { IfOk result (HasTold self) }
        ensures room { IfOk result HasRoom }
    {
        let mut planned = self;
        let logs = mem::replace(&mut planned.logs, Vec::new(alloc));
        for told in logs {
            planned.tell_group(alloc, told)?;
        }
        Ok(planned)
    }

    /// Writes what is told of a group.
    fn tell_group(&mut self, alloc: Global, told: (Group, GroupLog)) -> Result<(), AllocError>
        requires fits { FitsPartition self.old.schema told.0 }
        requires room { HasRoom self.old }
        ensures tells { OnOk result (TellsGroup self.old told self.new) }
        ensures room { OnOk result (HasRoom self.new) }
    {
        let (group, log) = told;
        let file = write_log(alloc, &self.schema, &log, &mut self.names)?;
        drop(log);
        let Some(file) = file else {
            return Ok(());
        };
        let (entry, changes) = entered(alloc, &self.schema, &group, file)?;
        self.files.push_back(changes)?;
        self.changes.push(entry)?;
        if self.files.len() > MOST_FILES {
            return Err(AllocError);
        }
        Ok(())
    }

    /// What the commit is for, once no group is left and what is told was written.
    pub fn into_commit(self) -> PlannedCommit
        requires done { self.left.items ≡ [] }
        requires told { self.logs.items ≡ [] }
        ensures { IsCommitOf self result }
    {
        let Planned {
            author,
            names,
            schema,
            newest,
            full,
            groups,
            removed,
            left,
            added,
            logs,
            changes,
            files,
        } = self;
        drop(left);
        drop(logs);
        let plan = Plan {
            groups,
            removed,
            added,
            changes,
            full,
        };
        PlannedCommit {
            author,
            names,
            schema,
            newest,
            plan,
            files,
        }
    }
}

/// The entry of a file that was made for a group, and the file at its path.
fn entered(
    alloc: Global,
    schema: &TableSchema,
    group: &Group,
    file: RunFile,
) -> Result<(Entry, CommitFile), AllocError>
    requires { FitsPartition schema.now group.now }
    ensures entry { IfOk result (λ made. made.0 ≡ live_entry schema.now group.now file.meta) }
    ensures file { IfOk result (λ made. made.1 ≡ group_file schema.now group.now file) }
{
    let RunFile { meta, bytes } = file;
    let path = data_path(alloc, schema, group, &meta.name)?;
    let entry = Entry {
        add: true,
        group: group.copy(alloc)?,
        buckets: schema.options.bucket,
        file: meta,
    };
    Ok((entry, CommitFile { path, bytes }))
}

/// The rows of runs that were read, with their bytes, as they are merged into files of a form.
#[tactic(auto, using(crate::proofs::MakeLemmas::rests_are, crate::proofs::MakeLemmas::rests_rise))]
fn rows_of<'b>(
    alloc: Global,
    runs: &'b [StoredRun],
    form: &'b TableForm,
) -> Result<Vec<WrittenRows<'b>>, AllocError>
    requires { All IsRising runs.now }
    ensures rests { IfOk result (λ rows. map (λ r. rest_of r.rows) rows.items ≡ rests_of runs.now) }
    ensures rising { IfOk result (λ rows. All IsRising (runs_in (map (λ r. rest_of r.rows) rows.items))) }
    ensures form { IfOk result (λ rows. AllByRecursion (AreGivenFor form.now) rows.items) }
{
    written_sources(alloc, runs, form)
}
