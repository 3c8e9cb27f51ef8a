//! What is known of a plan as it grows. Each law holds with no call.

ghost use Rattle.std.specs.Prelude.{◌≡◌, ◌∷◌, ◌++◌, ℕ, List, []};
ghost use Rattle.pm_store.specs.Files.{Files};
ghost use Rattle.pm_runs.specs.Succession.{Taking};
ghost use Rattle.pm_scan_rows.specs.Group.{GroupRead};
ghost use Rattle.pm_values.specs.declared.refusal.Refusal.{Refusal};
ghost use Rattle.pm_values.specs.declared.refusal.Refusal.TheVariants.{Memory};
ghost use Rattle.pm_schema.specs.declared.schema.TableSchema.{TableSchema};
ghost use Rattle.pm_model_folder.specs.Changes.{Actor};
ghost use Rattle.pm_model_folder.specs.Ledger.{Advances, Past};
ghost use Rattle.pm_made.specs.declared.intent.Plan.{Plan};
ghost use Rattle.pm_made.specs.declared.newest.Newest.{Newest};
ghost use Rattle.pm_choice.specs.declared.choice.ChosenGroup.{ChosenGroup};
ghost use Rattle.pm_compaction.specs.Plan.{KnowsPlan, NamesSoMany, RewrittenGroup};
ghost use Rattle.pm_plan.specs.Known.{FirstReadFor, KnowsPlanned, MayBegin};
ghost use Rattle.pm_plan.specs.Planned.{CanMake, HasRoom, HasTold, IsPlanFor, IsPlanOf, RefusesFirst, RewritesFirst};
ghost use Rattle.pm_plan.specs.declared.planned.Asking.{Asking};
ghost use Rattle.pm_plan.specs.declared.planned.Planned.{Planned as PlannedView};

/// A plan of groups with which an actor may begin is known as it begins. What is known of it stays so, whoever commits.
/// It grows with each group that is made of the runs that were taken of it, of which only memory may run out; and once
/// no group is left, and what is told was written, it is what a compaction has to know.
pub fn planned_law()
    ensures begins { (me : Actor) (p : Past) (asking : Asking) (s : TableSchema) (newest : Newest)
        (chosen : List ChosenGroup) (x : PlannedView) → IsPlanOf asking s newest chosen x
        → MayBegin me p asking s newest chosen → (takings : List Taking) × KnowsPlanned me p x [] takings }
    ensures stays { (me other : Actor) (f after : Files) (p q : Past) (x : PlannedView) (done : List RewrittenGroup)
        (takings : List Taking) → Advances other f p after q → KnowsPlanned me p x done takings
        → KnowsPlanned me q x done takings }
    ensures grows { (me : Actor) (p : Past) (x y : PlannedView) (done : List RewrittenGroup) (t : Taking)
        (takings : List Taking) (read : GroupRead) → CanMake y → KnowsPlanned me p x done (t ∷ takings)
        → FirstReadFor x.schema x.left.items t read → RewritesFirst x read y
        → (z : RewrittenGroup) × (z.taking ≡ t) × KnowsPlanned me p y (done ++ z ∷ []) takings }
    ensures memory { (me : Actor) (p : Past) (x : PlannedView) (done : List RewrittenGroup) (t : Taking)
        (takings : List Taking) (read : GroupRead) (refusal : Refusal) → KnowsPlanned me p x done (t ∷ takings)
        → FirstReadFor x.schema x.left.items t read → RefusesFirst x read refusal → refusal ≡ Memory }
    ensures whole { (me : Actor) (p : Past) (x y : PlannedView) (done : List RewrittenGroup) (plan : Plan)
        → KnowsPlanned me p x done [] → HasTold x y → HasRoom y → IsPlanFor y plan
        → KnowsPlan me x.schema x.newest.id plan y.files.items p }
    ensures named { (me : Actor) (p : Past) (x y : PlannedView) (done : List RewrittenGroup)
        → KnowsPlanned me p x done [] → HasTold x y → HasRoom y → NamesSoMany me x.newest.id 0 y.names }
{
    pm_model_folder::goes_on_law();
    pm_group_log::known_log_law();
}
