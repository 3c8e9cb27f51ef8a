//! Laws of what others do. Each holds with no call.

ghost use Rattle.pm_model_folder.specs.Changes.{Actor};
ghost use Rattle.pm_model_folder.specs.Ledger.{Past, Stands};
ghost use Rattle.pm_model_history.specs.History.{GoesOn};
ghost use Rattle.pm_store.specs.Files.{Files};
ghost use Rattle.pm_beside.specs.Bringing.{OthersApart};

use pm_model_folder::{goes_on_law, past_law};

/// Whatever other actors do, the files stand for a past whose history goes on.
pub fn apart_law()
    ensures stands { (me : Actor) (f after : Files) (p q : Past) → Stands f p → OthersApart me f p after q
        → Stands after q }
    ensures goes_on { (me : Actor) (f after : Files) (p q : Past) → OthersApart me f p after q
        → GoesOn p.history q.history }
{
    past_law();
    goes_on_law();
}
