//! Laws of readers of a schema. Each holds with no call.

ghost use Rattle.std.specs.Prelude.{◌≡◌, ◌↔◌, ℕ, ◌≤◌, List, Some};
ghost use Rattle.pm_machine.specs.Moves.{IsKept};
ghost use Rattle.pm_model_folder.specs.Changes.{Actor};
ghost use Rattle.pm_model_folder.specs.Folder.{Folder};
ghost use Rattle.pm_model_folder.specs.Ledger.{Advances, Past, Stands};
ghost use Rattle.pm_model_folder.specs.Paths.{schema_name};
ghost use Rattle.pm_model_history.specs.History.{no_table};
ghost use Rattle.pm_snapshot.specs.Names.{greatest};
ghost use Rattle.pm_store.specs.Answers.{Answers};
ghost use Rattle.pm_store.specs.declared.answer.Answer.{Answer};
ghost use Rattle.pm_store.specs.declared.call.Call.{Call};
ghost use Rattle.pm_store.specs.Files.{Files};
ghost use Rattle.pm_store.specs.Images.{MayLeave};
ghost use Rattle.pm_values.specs.declared.refusal.Refusal.{Refusal};
ghost use Rattle.pm_read_schema.specs.Meaning.{Knows, MayRefuse};
ghost use Rattle.pm_read_schema.specs.Names.{schema_id_in};
ghost use Rattle.pm_read_schema.specs.Reader.{next_call, schemas_call, Goes, Shown};
ghost use Rattle.pm_read_schema.specs.declared.phase.Phase.{Phase};
ghost use Rattle.pm_read_schema.specs.declared.phase.Phase.TheVariants as phases;

/// A name bears one id of a schema at most, and bears it exactly where it is that schema's.
pub fn schema_name_law()
    ensures { (name : List ℕ) (id : ℕ)
        → (schema_id_in name ≡ Some id) ↔ ((id ≤ greatest) × (name ≡ schema_name id)) }
{}

/// Where the files stand for a history, an answer shows that there is no table only where there is none, and nothing
/// else but that memory ran out. And where there is none, the listing of the schemas leads to no further call.
pub fn causes_law()
    ensures cause { (m : Phase) (call : Call) (answer : Answer) (refusal : Refusal) (f : Files) (p : Past)
        → Stands f p → Knows m f p → next_call m ≡ Some call → Answers call answer f → Shown m answer refusal
        → MayRefuse p.history refusal }
    ensures no_table { (answer : Answer) (new : Phase) (f : Files) → Folder f no_table
        → Answers schemas_call answer f → ¬ Goes phases.Schemas answer new }
{}

/// What a reader knows stays true through each kind of change of every actor.
pub fn known_law()
    ensures { (m : Phase) (other : Actor) (f after : Files) (p q : Past) → Stands f p → Advances other f p after q
        → Knows m f p → Knows m after q }
{}

/// Where nothing changes, that is the least kind of change, whoever acts.
pub fn nothing_law()
    ensures { (me : Actor) (f after : Files) (p later : Past) → IsKept f p after later
        → Advances me f p after later }
{}

/// Whatever a crash leaves of a reader's next call has the same content at each path.
pub fn images_law()
    ensures { (m : Phase) (call : Call) (f image : Files) (p : Past) → next_call m ≡ Some call
        → MayLeave call f image → IsKept f p image p }
{}
