//! Files made into runs.

ghost use Rattle.std.specs.Prelude.{◌≡◌, [], map, IfOk, OnOk, min};
ghost use Rattle.std.specs.List.{FoldsTo, sum_by};
ghost use Rattle.std.specs.List.Sorted.{IsPermutation, IsSorted};
ghost use Rattle.pm_values.specs.declared.file_meta.FileMeta.{FileMeta as Meta};
ghost use Rattle.pm_levels.specs.Order.{file_cmp, within_level};
ghost use Rattle.pm_levels.specs.Runs.{Puts, goes_on, lone, longer, run_of};
ghost use Rattle.pm_levels.specs.Sizes.{size_of};

use pm_values::FileMeta;
use std::alloc::{AllocError, Global};
use std::cmp::Ordering;

/// A run: one file of level 0, or the files of a level above it by rising least key.
#[derive(Drop)]
pub struct RunFiles {
    pub level: u32,
    pub files: Vec<FileMeta>,
}

/// The size of a run in bytes.
#[derive(Clone, Copy)]
pub struct RunSize {
    pub level: u32,
    pub bytes: u64,
}

/// The files in their order.
pub(crate) fn sorted(files: Vec<FileMeta>) -> Vec<FileMeta>
    ensures sorted { IsSorted file_cmp result.items }
    ensures same { IsPermutation files.items result.items }
{
    let mut files = files;
    files.sort_unstable_by(|a, b| order(a, b));
    files
}

/// Which of two files comes first.
fn order(a: &FileMeta, b: &FileMeta) -> Ordering
    ensures { result ≡ file_cmp a.now b.now }
{
    a.level
        .cmp(&b.level)
        .then(order_within(a, b))
        .then(a.name.cmp(&b.name))
}

/// Which of two files of one level comes first, before their names are looked at.
fn order_within(a: &FileMeta, b: &FileMeta) -> Ordering
    ensures { result ≡ within_level a.now b.now }
{
    if a.level == 0 {
        b.max_seq.cmp(&a.max_seq)
    } else {
        a.min_key.cmp(&b.min_key)
    }
}

/// The runs of files that stand in their order.
pub(crate) fn joined(alloc: Global, files: Vec<FileMeta>) -> Result<Vec<RunFiles>, AllocError>
    ensures { IfOk result (λ runs. FoldsTo Puts [] files.items (map run_of runs.items)) }
{
    let mut runs = Vec::new(alloc);
    for file in files {
        put(alloc, &mut runs, file)?;
    }
    Ok(runs)
}

/// Takes one file more into the runs of those before it.
fn put(alloc: Global, runs: &mut Vec<RunFiles>, file: FileMeta) -> Result<(), AllocError>
    ensures { OnOk result (Puts (map run_of runs.old.items) file (map run_of runs.new.items)) }
{
    match runs.pop() {
        Some(last) => {
            if goes_on(&last, &file) {
                runs.push(extended(last, file)?)?;
            } else {
                runs.push(last)?;
                runs.push(begun(alloc, file)?)?;
            }
        }
        None => runs.push(begun(alloc, file)?)?,
    }
    Ok(())
}

/// Whether the file goes to the run: both are of one level above 0.
fn goes_on(run: &RunFiles, file: &FileMeta) -> bool
    ensures { result ≡ goes_on (run_of run.now) file.now }
{
    run.level == file.level && 0 < file.level
}

/// A run of one file.
fn begun(alloc: Global, file: FileMeta) -> Result<RunFiles, AllocError>
    ensures { IfOk result (λ run. run_of run ≡ lone file) }
{
    let level = file.level;
    let mut files = Vec::new(alloc);
    files.push(file)?;
    Ok(RunFiles { level, files })
}

/// The run with one file more.
fn extended(run: RunFiles, file: FileMeta) -> Result<RunFiles, AllocError>
    ensures { IfOk result (λ new. run_of new ≡ longer (run_of run) file) }
{
    let level = run.level;
    let mut files = run.files;
    files.push(file)?;
    Ok(RunFiles { level, files })
}

impl RunFiles {
    /// The size of the run.
    pub(crate) fn size(&self) -> RunSize
        ensures { result ≡ size_of (run_of self.now) }
    {
        RunSize {
            level: self.level,
            bytes: bytes_of(self.files.as_slice()),
        }
    }
}

/// The sizes of files together, at most the greatest number of 64 bits.
fn bytes_of(files: &[FileMeta]) -> u64
    ensures { result ≡ min (sum_by (λ (file : Meta). file.size) files.now) 18446744073709551615 }
{
    let mut bytes: u64 = 0;
    for file in files {
        bytes = bytes.saturating_add(file.size);
    }
    bytes
}
