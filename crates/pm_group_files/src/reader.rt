//! The reader of the files of groups.

ghost use Rattle.std.specs.Prelude.{◌≡◌, ◌↔◌, All, IsTrue};
ghost use Rattle.pm_engine.specs.Covers.{IsRising};
ghost use Rattle.pm_scan_rows.specs.Group.{reads_of, runs_read};
ghost use Rattle.pm_group_files.specs.Collected.{nothing_of};
ghost use Rattle.pm_group_files.specs.Reader.{read_next, HandsOut, HasGroup, IsReady};
ghost use Rattle.pm_group_files.specs.declared.phase.Phase.TheVariants as phases;

use crate::after::read_next;
use crate::collected::Collected;
use crate::job::Job;
use crate::phase::Phase;
use crate::reading::Reading;
use pm_machine::{LawfulPhase, Running};
use pm_run::{one_list_law, order_law};
use pm_scan_rows::ReadGroup;
use pm_schema::TableSchema;
use std::alloc::Global;
use std::collections::VecDeque;

/// Reads the files of groups, one group's after another's, a call of the store a step. It is a part of other machines,
/// which make its calls.
pub type GroupReader = Running<Phase>;

impl LawfulPhase for Phase {
    fn laws() {
        one_list_law();
        order_law();
        pm_run::reading_law();
    }
}

/// The reader of these files of the table with this schema, as its snapshot with the id has them.
pub fn read_files(alloc: Global, schema: TableSchema, id: u64, files: VecDeque<Job>) -> GroupReader
    ensures { result ≡ read_next id (nothing_of schema) files.items }
{
    Running::new(read_next(id, Collected::new(alloc, schema), files))
}

/// Whether a group is whole that wasn't handed out.
pub fn has_group(reader: &GroupReader) -> bool
    ensures { IsTrue result ↔ HasGroup reader.now }
{
    match reader.phase() {
        Phase::Files { reading } => reading.collected.has_group(),
        Phase::Ready { collected } => collected.has_group(),
        _ => false,
    }
}

/// The groups that are whole, and the reader without them.
pub fn take_groups(alloc: Global, reader: GroupReader) -> (Vec<ReadGroup>, GroupReader)
    ensures hands_out { HandsOut reader (reads_of result.0.items) result.1 }
    ensures rising { All (All IsRising) (runs_read (reads_of result.0.items)) }
{
    match reader.into_phase() {
        Phase::Files { reading } => {
            let Reading {
                id,
                collected,
                next,
                rest,
            } = reading;
            let mut collected = collected;
            let groups = collected.take_groups(alloc);
            let reading = Reading {
                id,
                collected,
                next,
                rest,
            };
            (groups, Running::new(Phase::Files { reading }))
        }
        Phase::Ready { collected } => {
            let mut collected = collected;
            let groups = collected.take_groups(alloc);
            (groups, Running::new(Phase::Ready { collected }))
        }
        other => (Vec::new(alloc), Running::new(other)),
    }
}

/// Whether all files were read.
pub fn are_files_read(reader: &GroupReader) -> bool
    ensures { IsTrue result ↔ IsReady reader.now }
{
    matches!(reader.phase(), Phase::Ready { .. })
}

/// What was collected, once all files were read.
pub fn into_collected(reader: GroupReader) -> Collected
    requires { IsReady reader }
    ensures { reader ≡ phases.Ready result }
{
    match reader.into_phase() {
        Phase::Ready { collected } => collected,
        _ => unreachable!(),
    }
}
