//! What the phases of a compactor mean.

ghost use Rattle.pm_compactor.specs.declared.phase.Phase.TheVariants as phases;

use crate::compactor::CompactStep;
use crate::phase::Phase;
use pm_machine::PhaseMeaning;

impl PhaseMeaning for Phase {
    ghost use Rattle.pm_model_folder.specs.Ledger as ledgers;
    ghost use Rattle.pm_compactor.specs.Compactor.{calls_left, reached_at, GoesOn, Reaches};
    ghost use Rattle.pm_compactor.specs.Meaning.{Knows, Leaves};
    ghost use Rattle.pm_compactor.specs.Trace as traces;
    ghost use Rattle.pm_compactor.specs.Trace.{Did, Shows};

    type Step = CompactStep;

    ghost History = { ledgers.Past };

    ghost Folder = { ledgers.Stands };

    ghost Change = { Leaves };

    ghost knows = { Knows };

    ghost tells = { λ refusal f p. Unit {0} };

    ghost Asked = { traces.AskedOf };

    ghost did = { Did };

    ghost shows = { Shows };

    ghost calls_left = { calls_left };

    ghost reached_at = { reached_at };

    ghost reaches = { Reaches };

    ghost keeps = { GoesOn };

    fn reached(&self) -> CompactStep {
        match self {
            Phase::Commit { committer } => match committer.phase() {
                pm_commit::Phase::Committed { id, .. } => CompactStep::Committed(*id),
                _ => CompactStep::More,
            },
            Phase::Nothing => CompactStep::Nothing,
            _ => CompactStep::More,
        }
    }
}
