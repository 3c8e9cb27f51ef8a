//! What the calls of `expire` show.

ghost use Rattle.std.specs.Prelude.{◌≡◌, ◌⊎◌, List, Result, Err};
ghost use Rattle.pm_machine.specs.Trace.{Event};
ghost use Rattle.pm_values.specs.declared.refusal.Refusal.{Refusal};
ghost use Rattle.pm_values.specs.declared.refusal.Refusal.TheVariants as refusals;
ghost use Rattle.pm_command.specs.declared.start.Start.{Start};
ghost use Rattle.pm_expire.specs.declared.all_calls.Kept.{Kept};
ghost use Rattle.pm_expire_end.specs.declared.keep.KeepAsked.{KeepAsked};
ghost use Rattle.pm_command_expire.specs.Expire.{DidExpire};

/// The same calls show one answer at most, but that memory may have run out. So each other answer comes exactly where
/// the calls are those that it names.
pub fn one_answer_law()
    ensures { (start : Start) (asked : KeepAsked) (one other : Result Kept Refusal) (own : List Event)
        → DidExpire start asked one own → DidExpire start asked other own
        → (one ≡ other) ⊎ ((one ≡ Err refusals.Memory) ⊎ (other ≡ Err refusals.Memory)) }
{
    pm_expire::one_answer_law();
}
