//! The expirer.

ghost use Rattle.std.specs.Prelude.{◌≡◌, ◌<◌, IfErr, IfOk, OnErr, OnOk};
ghost use Rattle.pm_store.specs.Store.{IsLater};
ghost use Rattle.pm_read_expiry.specs.Found.{IsAsking};
ghost use Rattle.pm_read_expiry.specs.declared.phase.Phase.TheVariants as readers;
ghost use Rattle.pm_snapshots.specs.declared.phase.Phase.TheVariants as listers;
ghost use Rattle.pm_expire.specs.Expirer.{calls_left, Reaches};
ghost use Rattle.pm_expire.specs.Meaning.{ExpirerMoved, ExpirerTold};
ghost use Rattle.pm_expire.specs.Trace.{ExpirerActed};
ghost use Rattle.pm_expire.specs.declared.phase.Phase.TheVariants as phases;

use crate::laws::{causes_law, recounts_law, sound_law};
use crate::phase::Phase;
use pm_machine::{Running, make_step};
use pm_read_expiry::{Asking, expiry_reader};
use pm_store::FileStore;
use pm_values::Refusal;
use std::alloc::{AllocError, Global};

/// What a step of an expirer reached: it goes on; or it is done, with the first snapshot that is kept and the last,
/// both 0 where the table has none.
#[derive(Clone, Copy)]
pub enum ExpireStep {
    More,
    Done { first: u64, last: u64 },
}

/// Expires a table, a call of the store a step.
pub type Expirer = Running<Phase>;

/// The expirer of the table whose schema was just read.
pub fn expirer_of(alloc: Global, asking: Asking) -> Result<Expirer, AllocError>
    requires { IsAsking asking }
    ensures { IfOk result (λ expirer.
        expirer ≡ phases.Read (readers.Snapshots asking (listers.List asking.schema))) }
{
    Ok(Running::new(Phase::Read {
        reader: expiry_reader(alloc, asking)?,
    }))
}

/// Makes the next call of the store. After a refusal, and once it is done, no call is left.
pub fn step_expirer<F: FileStore>(
    alloc: Global,
    expirer: &mut Expirer,
    store: &mut F,
) -> Result<ExpireStep, Refusal>
    requires { 0 < calls_left expirer.old }
    ensures moves { ExpirerMoved expirer.old expirer.new (F.seen store.old) (F.seen store.new) }
    ensures tells { IfErr result (λ refusal. ExpirerTold expirer.old refusal (F.seen store.old) (F.seen store.new)) }
    ensures acts { ExpirerActed expirer.old expirer.new (F.seen store.old) (F.seen store.new) result }
    ensures reaches { IfOk result (λ step. Reaches step expirer.new) }
    ensures fewer { OnOk result (calls_left expirer.new < calls_left expirer.old) }
    ensures over { OnErr result (expirer.new ≡ phases.Over) }
    ensures later { IsLater (F.seen store.old) (F.seen store.new) }
{
    causes_law();
    recounts_law();
    sound_law();
    make_step(alloc, expirer, store)
}
