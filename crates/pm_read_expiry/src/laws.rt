//! Laws of readers of what an expiry needs to know. Each holds with no call but of the laws of crates below.

ghost use Rattle.std.specs.Prelude.{◌≡◌, Some};
ghost use Rattle.pm_model_folder.specs.Changes.{Actor};
ghost use Rattle.pm_model_folder.specs.Ledger.{Advances, Past, Stands};
ghost use Rattle.pm_machine.specs.Moves.{IsKept};
ghost use Rattle.pm_store.specs.Answers.{Answers};
ghost use Rattle.pm_store.specs.declared.answer.Answer.{Answer};
ghost use Rattle.pm_store.specs.declared.call.Call.{Call};
ghost use Rattle.pm_store.specs.Files.{Files};
ghost use Rattle.pm_store.specs.Images.{MayLeave};
ghost use Rattle.pm_values.specs.declared.refusal.Refusal.{Refusal};
ghost use Rattle.pm_read_expiry.specs.Meaning.{Knows, MayRefuse};
ghost use Rattle.pm_read_expiry.specs.Reader.{next_call, Shown};
ghost use Rattle.pm_read_expiry.specs.declared.phase.Phase.{Phase};

/// What a reader knows stays true through each kind of change of every actor.
pub fn known_law()
    ensures { (m : Phase) (other : Actor) (f after : Files) (p q : Past) → Stands f p → Advances other f p after q
        → Knows m f p → Knows m after q }
{
    pm_model_expiry::known_law();
}

/// Whatever others do between its calls, a folder that stands shows a reader no refusal but that memory ran out, or
/// that a snapshot which was listed has gone. So E9 to E12 never come of such a folder.
pub fn causes_law()
    ensures { (m : Phase) (call : Call) (answer : Answer) (refusal : Refusal) (f : Files) (p : Past) → Stands f p
        → Knows m f p → next_call m ≡ Some call → Answers call answer f → Shown m answer refusal
        → MayRefuse f p refusal }
{}

/// Whatever a crash leaves of its next call has the same content at each path.
pub fn images_law()
    ensures { (m : Phase) (call : Call) (f image : Files) (p : Past) → next_call m ≡ Some call
        → MayLeave call f image → IsKept f p image p }
{}
