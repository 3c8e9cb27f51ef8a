//! The registrar of a consumer.

ghost use Rattle.std.specs.Prelude.{◌≡◌, ◌+◌, ◌<◌, ◌≤◌, IfOk, OnErr, OnOk};
ghost use Rattle.pm_model_folder.specs.Changes.{Actor};
ghost use Rattle.pm_machine.specs.Trace.{HasTrace};
ghost use Rattle.pm_store.specs.Store.{IsLater};
ghost use Rattle.pm_register.specs.AllCalls.{DidRegister, RegistersAmong, RegistersNames};
ghost use Rattle.pm_register.specs.Meaning.{RegistrarMoved};
ghost use Rattle.pm_register.specs.Registrar.{calls_left, registering, registration_of};
ghost use Rattle.pm_register.specs.Registrar.{IsRegistering, Reaches, Registering};
ghost use Rattle.pm_register.specs.Trace.{RegistrarActed};
ghost use Rattle.pm_register.specs.declared.phase.Phase.TheVariants as phases;

use crate::laws::{all_calls_law, among_law};
use crate::phase::{Phase, Registration};
use pm_base::{Blob, Txt};
use pm_consumer_files::consumer_path;
use pm_machine::{Running, make_step};
use pm_model_folder::{past_law, steps_law};
use pm_snapshot::{Consumer, consumer_law, write_consumer};
use pm_store::FileStore;
use pm_values::Refusal;
use std::alloc::{AllocError, Global};

/// What a step of a registrar reached: it goes on, or the consumer is settled.
#[derive(Clone, Copy)]
pub enum RegisterStep {
    More,
    Settled,
}

/// Registers a consumer, a call of the store a step.
pub type Registrar = Running<Phase>;

/// The registrar of the consumer of a name, at whose path this was found, to read that snapshot next.
pub fn registrar_of(
    alloc: Global,
    name: &Txt,
    found: Option<Blob>,
    next: u64,
) -> Result<Registrar, AllocError>
    ensures { IfOk result (λ registrar. registrar
        ≡ phases.New found (registration_of (registering name.now found next))) }
{
    let path = consumer_path(alloc, name)?;
    let fresh = Blob::new(write_consumer(alloc, &Consumer { next, fresh: true })?);
    let known = Blob::new(write_consumer(alloc, &Consumer { next, fresh: false })?);
    let registration = Registration {
        path,
        next,
        fresh,
        known,
    };
    Ok(Running::new(Phase::New {
        found,
        registration,
    }))
}

/// Makes the next call of the store. After a refusal, and once the consumer is settled, no call is left.
pub fn step_registrar<F: FileStore>(
    alloc: Global,
    registrar: &mut Registrar,
    store: &mut F,
) -> Result<RegisterStep, Refusal>
    requires { 0 < calls_left registrar.old }
    ensures moves { RegistrarMoved registrar.old registrar.new (F.seen store.old) (F.seen store.new) }
    ensures acts { RegistrarActed registrar.old registrar.new (F.seen store.old) (F.seen store.new) result }
    ensures reaches { IfOk result (λ step. Reaches step registrar.new) }
    ensures fewer { OnOk result (calls_left registrar.new + 1 ≡ calls_left registrar.old) }
    ensures over { OnErr result (registrar.new ≡ phases.Over) }
    ensures later { IsLater (F.seen store.old) (F.seen store.new) }
{
    consumer_law();
    past_law();
    steps_law();
    make_step(alloc, registrar, store)
}

/// Registers the consumer of a name that isn't settled, at whose path this was found, to read that snapshot next: all
/// calls, one after another. Refuses with `ConsumerMoved` where its file was another at one of the swaps; `BelowFloor`,
/// with the greatest, where a floor exceeds the number, and then the consumer stays new; `StoreFault`; or out of
/// memory.
pub fn register<F: FileStore>(
    alloc: Global,
    name: &Txt,
    found: Option<Blob>,
    next: u64,
    store: &mut F,
) -> Result<(), Refusal>
    requires { IsRegistering (registering name.now found next) }
    ensures trace { HasTrace (DidRegister (registering name.now found next) result) (F.seen store.old)
        (F.seen store.new) }
    ensures history { RegistersNames (registering name.now found next) (F.seen store.old) (F.seen store.new) result }
    ensures beside { (me : Actor) → RegistersAmong me (registering name.now found next) (F.seen store.old)
        (F.seen store.new) result }
    ensures later { IsLater (F.seen store.old) (F.seen store.new) }
{
    all_calls_law();
    among_law();
    let mut registrar = match registrar_of(alloc, name, found, next) {
        Ok(registrar) => registrar,
        Err(_) => return Err(Refusal::Memory),
    };
    make_calls(alloc, &mut registrar, store)
}

/// Makes all three calls, or those up to a refusal.
fn make_calls<F: FileStore>(
    alloc: Global,
    registrar: &mut Registrar,
    store: &mut F,
) -> Result<(), Refusal>
    requires is_new { calls_left registrar.old ≡ 3 }
    ensures trace { (r : Registering) → registrar.old ≡ phases.New r.found (registration_of r)
        → HasTrace (DidRegister r result) (F.seen store.old) (F.seen store.new) }
    ensures later { IsLater (F.seen store.old) (F.seen store.new) }
{
    match step_registrar(alloc, registrar, store) {
        Ok(_) => {}
        Err(refusal) => return Err(refusal),
    }
    match step_registrar(alloc, registrar, store) {
        Ok(_) => {}
        Err(refusal) => return Err(refusal),
    }
    match step_registrar(alloc, registrar, store) {
        Ok(_) => Ok(()),
        Err(refusal) => Err(refusal),
    }
}
