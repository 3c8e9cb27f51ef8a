//! What the calls of `consumers` and of `consumers --drop` show.

ghost use Rattle.std.specs.Prelude.{◌≡◌, ◌⊎◌, ℕ, List, Bool, Result, Err};
ghost use Rattle.pm_machine.specs.Trace.{Event};
ghost use Rattle.pm_values.specs.declared.refusal.Refusal.{Refusal};
ghost use Rattle.pm_values.specs.declared.refusal.Refusal.TheVariants as refusals;
ghost use Rattle.pm_consumers.specs.AllCalls.{IsSameListing, Listing};
ghost use Rattle.pm_command_consumers.specs.Consumers.{DidConsumers};
ghost use Rattle.pm_command_consumers.specs.Drop.{DidRemove};

/// The same calls show one answer at most, but that memory may have run out. So each other answer comes exactly where
/// the calls are those that it names.
pub fn one_answer_law()
    ensures lists { (one other : Listing) (own : List Event) → DidConsumers one own → DidConsumers other own
        → IsSameListing one other ⊎ ((one ≡ Err refusals.Memory) ⊎ (other ≡ Err refusals.Memory)) }
    ensures drops { (name : List ℕ) (one other : Result Bool Refusal) (own : List Event) → DidRemove name one own
        → DidRemove name other own → (one ≡ other) ⊎ ((one ≡ Err refusals.Memory) ⊎ (other ≡ Err refusals.Memory)) }
{
    pm_consumers::one_answer_law();
    pm_move_consumer::one_answer_law();
}
