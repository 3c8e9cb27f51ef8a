//! The announcer of an expiry.

ghost use Rattle.std.specs.Prelude.{◌≡◌, ◌<◌, IfErr, IfOk, OnErr, OnOk};
ghost use Rattle.pm_store.specs.Store.{IsLater};
ghost use Rattle.pm_announce.specs.Announcer.{calls_left, IsAnnounced, IsReady, IsToAnnounce, Reaches};
ghost use Rattle.pm_announce.specs.Meaning.{AnnouncerMoved, AnnouncerTold};
ghost use Rattle.pm_announce.specs.Trace.{AnnouncerActed};
ghost use Rattle.pm_announce.specs.declared.phase.Phase.TheVariants as phases;

use crate::phase::{Announced, Phase};
use pm_consumers::listed_law;
use pm_machine::{Running, make_step};
use pm_model_expiry::{announces_law, reads_law};
use pm_model_folder::past_law;
use pm_read_expiry::{Found, known_law};
use pm_store::FileStore;
use pm_values::Refusal;
use std::alloc::Global;

/// What a step of an announcer reached: it goes on, or the end is known.
#[derive(Clone, Copy)]
pub enum AnnounceStep {
    More,
    Ready,
}

/// Announces an expiry, reads the consumers again and lists the tags, a call of the store a step.
pub type Announcer = Running<Phase>;

/// The announcer of what was found, where a snapshot is to go.
pub fn announcer_of(found: Found) -> Announcer
    requires { IsToAnnounce found }
    ensures { result ≡ phases.Announce found }
{
    Running::new(Phase::Announce { found })
}

/// Makes the next call of the store. After a refusal, and once the end is known, no call is left.
pub fn step_announcer<F: FileStore>(
    alloc: Global,
    announcer: &mut Announcer,
    store: &mut F,
) -> Result<AnnounceStep, Refusal>
    requires { 0 < calls_left announcer.old }
    ensures moves { AnnouncerMoved announcer.old announcer.new (F.seen store.old) (F.seen store.new) }
    ensures tells { IfErr result (λ refusal. AnnouncerTold announcer.old refusal (F.seen store.old)
        (F.seen store.new)) }
    ensures acts { AnnouncerActed announcer.old announcer.new (F.seen store.old) (F.seen store.new) result }
    ensures reaches { IfOk result (λ step. Reaches step announcer.new) }
    ensures fewer { OnOk result (calls_left announcer.new < calls_left announcer.old) }
    ensures over { OnErr result (announcer.new ≡ phases.Over) }
    ensures later { IsLater (F.seen store.old) (F.seen store.new) }
{
    announces_law();
    known_law();
    listed_law();
    past_law();
    reads_law();
    make_step(alloc, announcer, store)
}

/// What was announced, once the end is known.
pub fn into_announced(announcer: Announcer) -> Announced
    requires { IsReady announcer }
    ensures announced { announcer ≡ phases.Announced result }
    ensures in_order { IsAnnounced result }
{
    match announcer.into_phase() {
        Phase::Announced { announced } => announced,
        _ => unreachable!(),
    }
}
