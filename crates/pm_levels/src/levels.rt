//! The runs of a group.

ghost use Rattle.std.specs.Prelude.{◌≡◌, map, IfOk, IfErr};
ghost use Rattle.pm_levels.specs.Overlap.{AreDisjoint, IsFaultOf};
ghost use Rattle.pm_levels.specs.Runs.{AreRuns, run_of};
ghost use Rattle.pm_levels.specs.Sizes.{size_of};

use crate::fault::LevelFault;
use crate::overlap::first_overlap;
use crate::runs::{RunFiles, RunSize, joined, sorted};
use pm_values::FileMeta;
use std::alloc::{AllocError, Global};
use std::marker::Model;

/// The runs of a group, newest first, seen as their list.
pub struct Levels {
    runs: Vec<RunFiles>,
}

impl Drop for Levels {
    fn drop(self) {
        let Levels { runs } = self;
    }
}

impl Model for Levels {
    ghost use Rattle.std.specs.Prelude.{List, map};
    ghost use Rattle.pm_levels.specs.Runs.{RunView, run_of};

    ghost Value = { List RunView };

    ghost view = { λ l. map run_of l.runs.items };
}

impl Levels {
    /// The runs of a group's files, in whichever order these come.
    pub fn of_files(alloc: Global, files: Vec<FileMeta>) -> Result<Levels, LevelFault>
        ensures runs { IfOk result (λ levels. AreRuns files.items levels) }
        ensures disjoint { IfOk result (λ levels. AreDisjoint files.items) }
        ensures fault { IfErr result (IsFaultOf files.items) }
    {
        let mut files = sorted(files);
        match first_overlap(files.as_slice()) {
            Some(i) => Err(LevelFault::Overlap(files.swap_remove(i))),
            None => Ok(Levels {
                runs: joined(alloc, files)?,
            }),
        }
    }

    /// The runs, newest first.
    pub fn runs(&self) -> &[RunFiles]
        ensures { map run_of result.now ≡ self.now }
    {
        self.runs.as_slice()
    }

    /// The sizes of the runs, newest first.
    pub fn sizes(&self, alloc: Global) -> Result<Vec<RunSize>, AllocError>
        ensures { IfOk result (λ sizes. sizes.items ≡ map size_of self.now) }
    {
        let mut sizes = Vec::with_capacity(alloc, self.runs.len())?;
        for run in &self.runs {
            sizes.push(run.size())?;
        }
        Ok(sizes)
    }
}
