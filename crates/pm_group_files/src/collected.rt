//! What a reader of files has collected.

ghost use Rattle.std.specs.Prelude.{◌≡◌, ◌≢◌, ◌↔◌, ◌⊎◌, ◌++◌, [], All, List, IfErr, IfOk, IsTrue, OnOk};
ghost use Rattle.pm_engine.specs.Covers.{IsRising};
ghost use Rattle.pm_scan_rows.specs.Group.{reads_of, runs_read};
ghost use Rattle.pm_scan_rows.specs.Shown.{groups_of};
ghost use Rattle.pm_values.specs.declared.record.Stamped.{Stamped as StampedView};
ghost use Rattle.pm_values.specs.declared.refusal.Refusal.TheVariants as refusals;
ghost use Rattle.pm_group_files.specs.Collected.{Closes, ClosesKept, HasMore, RefusesFile, RefusesJob, Takes};
ghost use Rattle.pm_group_files.specs.Collected.{TakesRows, group_closed, nothing_of};
ghost use Rattle.pm_group_files.specs.Collected.{run_closed, with_kept, without_groups};

use crate::job::{Ends, Job};
use pm_base::Blob;
use pm_run::order_law;
use pm_run_reader::RunReader;
use pm_scan_rows::{ReadGroup, StoredRun};
use pm_schema::TableSchema;
use pm_values::Refusal;
use std::alloc::{AllocError, Global};
use std::marker::Model;
use std::mem;

/// The groups that are whole; of the group in hand the runs that were read whole, newest first, and the files that are
/// kept; and the run in hand, as far as its files were read. All of a table with this schema.
pub struct Collected {
    schema: TableSchema,
    groups: Vec<ReadGroup>,
    runs: Vec<StoredRun>,
    kept: Vec<Blob>,
    run: StoredRun,
}

impl Drop for Collected {
    fn drop(self) {
        let Collected {
            schema,
            groups,
            runs,
            kept,
            run,
        } = self;
    }
}

impl Model for Collected {
    ghost use Rattle.pm_scan_rows.specs.Group.{reads_of};
    ghost use Rattle.pm_group_files.specs.Collected as specs;
    ghost use Rattle.pm_group_files.specs.Collected.{collected_of, AreRisingIn};

    ghost Value = { specs.Collected };

    ghost view = { λ c. collected_of c.schema (reads_of c.groups.items) c.runs.items c.kept.items c.run };

    ghost invariant = { λ c. AreRisingIn
        (collected_of c.schema (reads_of c.groups.items) c.runs.items c.kept.items c.run) };
}

impl Collected {
    /// Nothing of a table with this schema.
    pub(crate) fn new(alloc: Global, schema: TableSchema) -> Collected
        ensures { result ≡ nothing_of schema }
    {
        Collected {
            schema,
            groups: Vec::new(alloc),
            runs: Vec::new(alloc),
            kept: Vec::new(alloc),
            run: StoredRun::new(alloc),
        }
    }

    /// The schema of the table.
    pub fn schema(&self) -> &TableSchema
        ensures { result.now ≡ self.now.schema }
    {
        &self.schema
    }

    /// Takes the next file, which has these bytes: its rows, or the bytes themselves. Refusals are those of
    /// `RunReader`; nothing is said of what is collected after one.
    pub(crate) fn take(&mut self, alloc: Global, job: &Job, bytes: Blob) -> Result<(), Refusal>
        ensures takes { OnOk result (Takes job.now bytes self.old self.new) }
        ensures refuses { IfErr result (λ e. (e ≡ refusals.Memory)
            ⊎ RefusesJob self.old.schema job.now bytes self.old.rows e) }
    {
        if job.kept {
            return Ok(self.keep(alloc, job.ends, bytes)?);
        }
        self.take_rows(alloc, job, bytes)
    }

    /// Keeps a file with these bytes, with which this ends.
    fn keep(&mut self, alloc: Global, end: Ends, bytes: Blob) -> Result<(), AllocError>
        ensures { OnOk result (ClosesKept end (with_kept bytes self.old) self.new) }
    {
        self.kept.push(bytes)?;
        match end {
            Ends::Group => self.close_group(alloc),
            _ => Ok(()),
        }
    }

    /// Takes the rows of the next file.
    fn take_rows(&mut self, alloc: Global, job: &Job, bytes: Blob) -> Result<(), Refusal>
        ensures takes { OnOk result (TakesRows job.now bytes self.old self.new) }
        ensures refuses { IfErr result (λ e. (e ≡ refusals.Memory)
            ⊎ RefusesFile self.old.schema job.now bytes self.old.rows e) }
    {
        let before = mem::replace(&mut self.run, StoredRun::new(alloc));
        self.run = with_rows(alloc, &self.schema, job, bytes, before)?;
        self.close(alloc, job.ends)?;
        Ok(())
    }

    /// A file that was read ends, and this with it.
    fn close(&mut self, alloc: Global, end: Ends) -> Result<(), AllocError>
        ensures { OnOk result (Closes end self.old self.new) }
    {
        match end {
            Ends::File => Ok(()),
            Ends::Run => self.close_run(alloc),
            Ends::Group => {
                self.close_run(alloc)?;
                self.close_group(alloc)
            }
        }
    }

    /// The run in hand ends.
    fn close_run(&mut self, alloc: Global) -> Result<(), AllocError>
        ensures { OnOk result (self.new ≡ run_closed self.old) }
    {
        let run = mem::replace(&mut self.run, StoredRun::new(alloc));
        self.runs.push(run)?;
        Ok(())
    }

    /// The group in hand ends, whose runs were read whole: they stand with the oldest first then.
    fn close_group(&mut self, alloc: Global) -> Result<(), AllocError>
        ensures { OnOk result (self.new ≡ group_closed self.old) }
    {
        let mut runs = mem::replace(&mut self.runs, Vec::new(alloc));
        runs.reverse();
        let kept = mem::replace(&mut self.kept, Vec::new(alloc));
        self.groups.push(ReadGroup { runs, kept })?;
        Ok(())
    }

    /// Whether a group is there that is whole.
    pub(crate) fn has_group(&self) -> bool
        ensures { IsTrue result ↔ (self.now.groups ≢ []) }
    {
        !self.groups.is_empty()
    }

    /// The groups that are whole, which are no longer there then.
    pub(crate) fn take_groups(&mut self, alloc: Global) -> Vec<ReadGroup>
        ensures groups { reads_of result.items ≡ self.old.groups }
        ensures rising { All (All IsRising) (runs_read (reads_of result.items)) }
        ensures left { self.new ≡ without_groups self.old }
    {
        mem::replace(&mut self.groups, Vec::new(alloc))
    }

    /// The runs of the groups that are whole.
    pub fn into_runs(self, alloc: Global) -> Result<Vec<Vec<StoredRun>>, AllocError>
        ensures runs { IfOk result (λ runs. groups_of runs.items ≡ runs_read self.groups) }
        ensures rising { IfOk result (λ runs. All (All IsRising) (groups_of runs.items)) }
    {
        let Collected {
            schema,
            groups,
            runs,
            kept,
            run,
        } = self;
        drop(schema);
        drop(runs);
        drop(kept);
        drop(run);
        let mut all = Vec::new(alloc);
        for group in groups {
            let ReadGroup { runs, kept } = group;
            drop(kept);
            all.push(runs)?;
        }
        Ok(all)
    }
}

/// The run with the rows of a file that has these bytes, after those before it.
fn with_rows(
    alloc: Global,
    schema: &TableSchema,
    job: &Job,
    bytes: Blob,
    before: StoredRun,
) -> Result<StoredRun, Refusal>
    requires { IsRising before }
    ensures more { IfOk result (λ run. (more : List StampedView) × HasMore schema.now job.now bytes before more
        × (run ≡ before ++ more)) }
    ensures rising { IfOk result IsRising }
    ensures refuses { IfErr result (λ e. (e ≡ refusals.Memory) ⊎ RefusesFile schema.now job.now bytes before e) }
{
    order_law();
    let mut run = before;
    let reader = RunReader::open(
        alloc,
        job.path.as_str(),
        schema,
        job.schema_id,
        bytes,
        false,
    )?;
    run.append(alloc, reader)?;
    Ok(run)
}
