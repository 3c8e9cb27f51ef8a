//! Laws of creators. Each holds with no call but of laws of crates below.

ghost use Rattle.std.specs.Prelude.{List, Result, Some, ◌≡◌, ◌≢◌};
ghost use Rattle.pm_create.specs.Creator.{next_call, NewTable};
ghost use Rattle.pm_create.specs.Making.{DidMake};
ghost use Rattle.pm_create.specs.Meaning.{Begins, Knows, Makes};
ghost use Rattle.pm_create.specs.Trace.{Shows};
ghost use Rattle.pm_create.specs.declared.phase.Phase.{Phase};
ghost use Rattle.pm_model_folder.specs.Changes.{Actor, origin_name};
ghost use Rattle.pm_model_folder.specs.Ledger.{Advances, Past, Stands};
ghost use Rattle.pm_model_history.specs.History.{History};
ghost use Rattle.pm_machine.specs.Moves.{Lasts};
ghost use Rattle.pm_machine.specs.Trace.{Event};
ghost use Rattle.pm_store.specs.declared.call.Call.{Call};
ghost use Rattle.pm_store.specs.Files.{Files};
ghost use Rattle.pm_store.specs.Images.{MayLeave};
ghost use Rattle.pm_values.specs.declared.refusal.Refusal.{Refusal};

use pm_model_folder::past_law;
use pm_schema::{declared_law, schema_law};

/// What a creator knows stays true through each kind of change of every actor that gives its origin another name.
pub fn known_law()
    ensures { (t : NewTable) (m : Phase) (other : Actor) (f after : Files) (p q : Past) → Stands f p
        → Advances other f p after q → origin_name other ≢ origin_name t.me → Knows t m f p → Knows t m after q }
{}

/// Through a creator's own changes the files stand for the history that they stood for at first, or for this table
/// where that was none.
pub fn begins_law()
    ensures { (t : NewTable) (first : History)
        → Lasts Stands (Makes t) (λ f p. Begins t.schema first p.history) }
{
    past_law();
}

/// Calls show one refusal at most, whichever tables they make. So each refusal comes exactly where the last call ended
/// as it says.
pub fn causes_law()
    ensures { (t u : NewTable) (own : List Event) (one other : Refusal) → Shows t one own → Shows u other own
        → one ≡ other }
{}

/// Whatever a crash leaves of a creator's next call stands for the history before it, or for the one with its table.
pub fn images_law()
    ensures { (t : NewTable) (m : Phase) (call : Call) (f image : Files) (p : Past) → next_call m ≡ Some call
        → Stands f p → Knows t m f p → MayLeave call f image
        → (later : Past) × Makes t f p image later × Stands image later }
{
    past_law();
    declared_law();
    schema_law();
}

/// Calls show one answer at most, whichever tables they make: where a table was made none was refused, and each refusal
/// comes exactly where the last call ended as it says.
pub fn one_answer_law()
    ensures { (t u : NewTable) (own : List Event) (one other : Result (Unit {0}) Refusal) → DidMake t one own
        → DidMake u other own → one ≡ other }
{}
