//! The reader of a frame.

ghost use Rattle.std.specs.Prelude.{◌≡◌, ◌↔◌, ◌≤◌, ℕ, IsTrue};
ghost use Rattle.pm_schema.specs.Again.{IsDeclared};
ghost use Rattle.pm_read_log.specs.Log.{log_asked_of};
ghost use Rattle.pm_read_log.specs.declared.log_phase.LogPhase.TheVariants as logs;
ghost use Rattle.pm_read_frame.specs.Reader.{IsReady};
ghost use Rattle.pm_read_frame.specs.declared.phase.Phase.TheVariants as phases;

use crate::laws::{causes_law, taken_law};
use crate::phase::Phase;
use pm_machine::{LawfulPhase, Running};
use pm_manifest::ManifestMeta;
use pm_model_contents::one_contents_law;
use pm_read_log::log_at;
use pm_record::one_reading_law;
use pm_schema::TableSchema;

/// Reads the frame of a snapshot, a call of the store a step, and has its text in the end.
pub type FrameReader = Running<Phase>;

impl LawfulPhase for Phase {
    fn laws() {
        one_contents_law();
        one_reading_law::<ManifestMeta>();
        taken_law();
        causes_law();
    }
}

/// A reader of the frame of the snapshot with this id, from 1, of the table with this schema, which was read.
pub fn frame_at(schema: TableSchema, id: u64) -> FrameReader
    requires declared { IsDeclared schema }
    requires after_origin { 1 ≤ id }
    ensures { result ≡ phases.Log (logs.Snapshot (log_asked_of schema id)) }
{
    Running::new(Phase::Log {
        reader: log_at(schema, id),
    })
}

/// Whether the text is ready.
pub fn is_frame_ready(reader: &FrameReader) -> bool
    ensures { IsTrue result ↔ IsReady reader.now }
{
    matches!(reader.phase(), Phase::Ready { .. })
}

/// The text of the frame, once it is ready.
pub fn into_text(reader: FrameReader) -> Vec<u8>
    requires { IsReady reader }
    ensures { (id : ℕ) × (reader ≡ phases.Ready id result) }
{
    match reader.into_phase() {
        Phase::Ready { text, .. } => text,
        _ => unreachable!(),
    }
}
