//! The reader of a consumer's file.

ghost use Rattle.std.specs.Prelude.{◌≡◌, IfOk};
ghost use Rattle.pm_model_folder.specs.Paths.{consumer_path};
ghost use Rattle.pm_read_consumer.specs.Reader.{IsReady};
ghost use Rattle.pm_read_consumer.specs.declared.phase.Phase.TheVariants as phases;

use crate::phase::{FoundConsumer, Phase};
use pm_base::Txt;
use pm_consumer_files::consumer_path;
use pm_machine::{LawfulPhase, Running};
use std::alloc::{AllocError, Global};

/// Reads the file of a consumer, and has what was found: one call of the store.
pub type ConsumerReader = Running<Phase>;

impl LawfulPhase for Phase {
    fn laws() {}
}

/// A reader of the file of the consumer of a name, that has made no call yet.
pub fn consumer_reader(alloc: Global, name: &Txt) -> Result<ConsumerReader, AllocError>
    ensures { IfOk result (λ reader. reader ≡ phases.Read (consumer_path name.now)) }
{
    Ok(Running::new(Phase::Read {
        path: consumer_path(alloc, name)?,
    }))
}

/// What was found, once it is known.
pub fn into_found(reader: ConsumerReader) -> FoundConsumer
    requires { IsReady reader }
    ensures { reader ≡ phases.Ready result }
{
    match reader.into_phase() {
        Phase::Ready { found } => found,
        _ => unreachable!(),
    }
}
