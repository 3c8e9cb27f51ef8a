//! The old values of keys.

ghost use Rattle.std.specs.Prelude.{◌≡◌, ◌≤◌, ◌∷◌, ◌++◌, IfErr, IfOk, List, OnOk, map, option_to_list};
ghost use Rattle.std.specs.List.{AllByRecursion};
ghost use Rattle.pm_values.specs.declared.refusal.Refusal.TheVariants.{Memory};
ghost use Rattle.pm_schema.specs.declared.schema.TableSchema.{TableSchema};
ghost use Rattle.pm_engine.specs.Covers.{Run};
ghost use Rattle.pm_merge.specs.Merging.{AreCombined};
ghost use Rattle.pm_lookup.specs.Lookup.{AreOne, HaveOne, IsFor, IsOldValue, LooksOn, files_in, files_of, looked_in};
ghost use Rattle.pm_lookup.specs.File.{IsFileFor, SeenFile, seen};

use crate::file::{FileBytes, LookedFile};
use pm_engine::{MergeEngine, Stored, combined};
use pm_run::RunBytes;
use pm_schema::TableSchema;
use pm_values::{Key, Refusal, Stamped};
use std::alloc::{AllocError, Global};
use std::mem;

/// The runs of a group, in which the old values of keys are looked up.
pub struct Lookup {
    pub(crate) files: Vec<LookedFile>,
}

impl Drop for Lookup {
    fn drop(self) {
        let Lookup { files } = self;
    }
}

impl Lookup {
    /// The runs, the newest first. `capacity`, at least 1, is for a cache of blocks: there is none yet, and no answer
    /// depends on it.
    pub fn new(alloc: Global, runs: Vec<RunBytes>, capacity: usize) -> Result<Lookup, Refusal>
        requires { 1 ≤ capacity }
        ensures files { IfOk result (λ l. looked_in l ≡ files_of runs.items) }
        ensures opened { IfOk result (λ l. (s : TableSchema) → IsFor s l) }
        ensures memory { IfErr result (λ e. e ≡ Memory) }
    {
        let mut files = Vec::new(alloc);
        for run in runs {
            push_run(alloc, &mut files, run)?;
        }
        Ok(Lookup { files })
    }

    /// The stored row of a key in the merge of the runs without dropping (`old_value_law`), or none where no run has
    /// the key. All calls are given equal schemas. Refusals are `Memory`, and those of opening a file whose range holds
    /// the key and of its blocks up to the first whose last key isn't below the key: the first in the order of the runs
    /// and of the files of each.
    pub fn old_value<E: MergeEngine>(
        &mut self,
        alloc: Global,
        engine: &E,
        schema: &TableSchema,
        key: &Key,
    ) -> Result<Option<Stored>, Refusal>
        requires { IsFor schema.now self.old }
        ensures same { OnOk result (looked_in self.new ≡ looked_in self.old) }
        ensures opened { IsFor schema.now self.new }
        ensures old { IsOldValue (E.meaning engine.now) schema.now key.now (looked_in self.old) result }
    {
        let mut old: Option<Stamped> = None;
        for file in self.files.iter_mut() {
            old = look_in(alloc, engine, schema, key, file, old)?;
        }
        match old {
            Some(row) => Ok(Some(Stored {
                kind: row.kind,
                row: row.row,
            })),
            None => Ok(None),
        }
    }
}

/// Looks in a file for a key, if its range holds it, and puts its row under what the newer ones are.
fn look_in<E: MergeEngine>(
    alloc: Global,
    engine: &E,
    schema: &TableSchema,
    key: &Key,
    file: &mut LookedFile,
    newer: Option<Stamped>,
) -> Result<Option<Stamped>, Refusal>
    requires { IsFileFor schema.now file.old }
    ensures same { OnOk result (seen file.new ≡ seen file.old) }
    ensures opened { IsFileFor schema.now file.new }
    ensures looks { (before : List SeenFile) → HaveOne (E.meaning engine.now) schema.now key.now before newer
        → LooksOn (E.meaning engine.now) schema.now key.now before (seen file.old) result }
{
    if !file.may_hold(key) {
        file.let_go();
        return Ok(newer);
    }
    let found = file.find(alloc, schema, key)?;
    Ok(under(alloc, engine, found, newer)?)
}

/// The row that was found, if there is one, under what the newer ones are.
fn under<E: MergeEngine>(
    alloc: Global,
    engine: &E,
    older: Option<Stamped>,
    newer: Option<Stamped>,
) -> Result<Option<Stamped>, AllocError>
    ensures { (rows : Run) → AreOne (E.meaning engine.now) rows newer
        → IfOk result (λ one. AreOne (E.meaning engine.now) (option_to_list older ++ rows) one) }
{
    match older {
        Some(older) => Ok(Some(upon(alloc, engine, older, newer)?)),
        None => Ok(newer),
    }
}

/// What the newer rows are, upon an older one.
fn upon<E: MergeEngine>(
    alloc: Global,
    engine: &E,
    older: Stamped,
    newer: Option<Stamped>,
) -> Result<Stamped, AllocError>
    ensures { (rows : Run) → AreOne (E.meaning engine.now) rows newer
        → IfOk result (λ one. AreCombined (E.meaning engine.now) (older ∷ rows) one) }
{
    match newer {
        Some(newer) => Ok(combined(alloc, engine, older, newer)?),
        None => Ok(older),
    }
}

/// Puts the files of a run after those of newer ones.
fn push_run(alloc: Global, files: &mut Vec<LookedFile>, run: RunBytes) -> Result<(), AllocError>
    ensures files { OnOk result
        (map seen files.new.items ≡ map seen files.old.items ++ files_in run) }
    ensures opened { OnOk result ((s : TableSchema) → AllByRecursion (IsFileFor s) files.old.items
        → AllByRecursion (IsFileFor s) files.new.items) }
{
    let mut run = run;
    let given = mem::replace(&mut run.files, Vec::new(alloc));
    for (meta, bytes) in given {
        let mut path = run.folder.copy(alloc)?;
        path.push_str("/")?;
        path.push_str(meta.name.as_str())?;
        files.push(LookedFile {
            path,
            meta,
            bytes: FileBytes::Closed(bytes),
        })?;
    }
    Ok(())
}
