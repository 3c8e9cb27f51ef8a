//! Laws of announcers. Each holds with no call but of the laws of crates below.

ghost use Rattle.std.specs.Prelude.{◌≡◌, Some};
ghost use Rattle.pm_model_folder.specs.Changes.{Actor};
ghost use Rattle.pm_model_folder.specs.Ledger.{Advances, Past, Stands};
ghost use Rattle.pm_store.specs.Answers.{Answers};
ghost use Rattle.pm_store.specs.declared.answer.Answer.{Answer};
ghost use Rattle.pm_store.specs.declared.call.Call.{Call};
ghost use Rattle.pm_store.specs.Files.{Files};
ghost use Rattle.pm_store.specs.Images.{MayLeave};
ghost use Rattle.pm_values.specs.declared.refusal.Refusal.{Refusal};
ghost use Rattle.pm_announce.specs.Announcer.{next_call, Shown};
ghost use Rattle.pm_announce.specs.Meaning.{Knows, Makes, MayRefuse};
ghost use Rattle.pm_announce.specs.declared.phase.Phase.{Phase};

use pm_consumers::listed_law;
use pm_model_expiry::{announces_law, reads_law};
use pm_model_folder::past_law;

/// What an announcer knows stays true through each kind of change of every actor.
pub fn known_law()
    ensures { (m : Phase) (other : Actor) (f after : Files) (p q : Past) → Stands f p → Advances other f p after q
        → Knows m f p → Knows m after q }
{
    pm_model_expiry::known_law();
    pm_read_expiry::known_law();
}

/// Whatever others do between its calls, a folder that stands shows an announcer no refusal but that memory ran out, or
/// the first tag, where one is there.
pub fn causes_law()
    ensures { (m : Phase) (call : Call) (answer : Answer) (refusal : Refusal) (f : Files) (p : Past) → Stands f p
        → next_call m ≡ Some call → Answers call answer f → Shown m answer refusal → MayRefuse f refusal }
{}

/// Whatever a crash leaves of its next call is one of its changes.
pub fn images_law()
    ensures { (me : Actor) (m : Phase) (call : Call) (f image : Files) (p : Past) → next_call m ≡ Some call
        → Stands f p → Knows m f p → MayLeave call f image → (later : Past) × Makes me m f p image later }
{
    announces_law();
    pm_read_expiry::known_law();
    listed_law();
    past_law();
    reads_law();
}
