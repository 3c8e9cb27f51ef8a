//! Laws of registrars. Each holds with no call but of laws of crates below.

ghost use Rattle.std.specs.Prelude.{List, Result, Some, ◌≡◌, ◌≢◌};
ghost use Rattle.pm_machine.specs.Trace.{Event, HasTrace};
ghost use Rattle.pm_model_folder.specs.Changes.{Actor};
ghost use Rattle.pm_model_folder.specs.Consumers.{follower_of};
ghost use Rattle.pm_model_folder.specs.Ledger.{Advances, Past, Stands};
ghost use Rattle.pm_store.specs.declared.call.Call.{Call};
ghost use Rattle.pm_store.specs.Files.{Files};
ghost use Rattle.pm_store.specs.Images.{MayLeave};
ghost use Rattle.pm_store.specs.Store.{StoreView};
ghost use Rattle.pm_values.specs.declared.refusal.Refusal.{Refusal};
ghost use Rattle.pm_register.specs.AllCalls.{DidRegister, RegistersAmong, RegistersNames};
ghost use Rattle.pm_register.specs.Meaning.{Knows, RegistersAt};
ghost use Rattle.pm_register.specs.Registrar.{next_call, IsRegistering, Registering};
ghost use Rattle.pm_register.specs.Trace.{Shows};
ghost use Rattle.pm_register.specs.declared.phase.Phase.{Phase};

use pm_model_folder::{consumers_law, past_law, settled_law, steps_law};
use pm_snapshot::consumer_law;

/// What a registrar knows stays true through each kind of change of every actor that registers under another name.
pub fn known_law()
    ensures { (me other : Actor) (r : Registering) (m : Phase) (f after : Files) (p q : Past) → Stands f p
        → Advances other f p after q → follower_of other ≢ follower_of me → Knows me r m f p → Knows me r m after q }
{
    consumers_law();
    pm_model_consumers::follower_law();
}

/// Calls show one refusal at most.
pub fn causes_law()
    ensures { (r : Registering) (own : List Event) (one other : Refusal) → Shows r one own → Shows r other own
        → one ≡ other }
{}

/// And one answer: where the consumer was settled none was refused, and each refusal comes exactly where the last call
/// ended as it says.
pub fn one_answer_law()
    ensures { (r : Registering) (own : List Event) (one other : Result (Unit {0}) Refusal) → DidRegister r one own
        → DidRegister r other own → one ≡ other }
{}

/// Whatever a crash leaves of a registrar's next call is one of its changes.
pub fn images_law()
    ensures { (me : Actor) (r : Registering) (m : Phase) (call : Call) (f image : Files) (p : Past)
        → next_call m ≡ Some call → Stands f p → Knows me r m f p → MayLeave call f image
        → (later : Past) × RegistersAt me r m f p image later × Stands image later }
{
    consumer_law();
    past_law();
    steps_law();
}

/// What its calls show of a table that stands at the first one, where nobody else acts from then on.
pub fn all_calls_law()
    ensures { (r : Registering) (result : Result (Unit {0}) Refusal) (before after : StoreView) → IsRegistering r
        → HasTrace (DidRegister r result) before after → RegistersNames r before after result }
{
    consumer_law();
    past_law();
    settled_law();
    steps_law();
}

/// What its calls bring to any past, whatever other actors do.
pub fn among_law()
    ensures { (me : Actor) (r : Registering) (result : Result (Unit {0}) Refusal) (before after : StoreView)
        → IsRegistering r → HasTrace (DidRegister r result) before after → RegistersAmong me r before after result }
{
    consumer_law();
    consumers_law();
    past_law();
    pm_model_consumers::follower_law();
    steps_law();
}
